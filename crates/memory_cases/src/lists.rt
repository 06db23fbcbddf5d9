//! Persistent lists: one more item, or another one.
use crate::refusals::Window;
use crate::scene::Scene;
use crate::told::Told;
use crate::turn::{Turn, shown};
use anyhow::Result;
use share_tree::{KeepFault, Keeps};
use std::alloc::Global;

/// Two lists that hold the same, and the call on the first.
#[derive(Drop)]
struct Lists<'a, K> {
    call: &'a str,
    list: K,
    other: K,
}

/// The items of a list.
fn push_items<K: Keeps<u32>>(text: &mut Told, list: &K) {
    for place in 0..list.len() {
        if let Some(item) = list.get(place) {
            text.push_number(*item);
        }
    }
    text.push("\n");
}

/// The list with another item in the middle.
fn set_middle<K: Keeps<u32>>(list: &K) -> Result<Option<K>, KeepFault> {
    let middle = list.len() / 2;
    if middle >= list.len() {
        return Ok(None);
    }
    Ok(Some(list.set(middle, 99)?))
}

/// Writes another item in the middle.
fn write_middle<K: Keeps<u32>>(list: &mut K) -> Result<Option<K>, KeepFault> {
    let middle = list.len() / 2;
    if middle < list.len() {
        list.write(middle, 99)?;
    }
    Ok(None)
}

/// A list of so many items, which another one holds too.
fn lists_of<K: Keeps<u32>>(alloc: Global, call: &str, count: u32) -> Result<Lists<'_, K>> {
    let mut list = K::empty(alloc);
    for item in 0..count {
        list.add(item)?;
    }
    let other = list.again()?;
    Ok(Lists { call, list, other })
}

/// Tells an answer.
fn push_list<K: Keeps<u32>>(text: &mut Told, answer: &Result<Option<K>, KeepFault>) -> bool {
    match answer {
        Ok(Some(list)) => push_items(text, list),
        Ok(None) => {}
        Err(KeepFault::Full) => text.push("refused 30 Full"),
        Err(KeepFault::Memory) => return true,
    }
    false
}

impl<K: Keeps<u32>> Lists<'_, K> {
    /// One more item, or another one in the middle, in the list or in a new one.
    fn change(&mut self) -> Result<Option<K>, KeepFault> {
        match self.call {
            "push" => Ok(Some(self.list.push(99)?)),
            "set" => set_middle(&self.list),
            "write" => write_middle(&mut self.list),
            _ => {
                self.list.add(99)?;
                Ok(None)
            }
        }
    }

    /// Tells both lists.
    fn push_value(&self, text: &mut Told) {
        push_items(text, &self.list);
        push_items(text, &self.other);
    }

    /// The call.
    fn push_answer(&mut self, window: &mut Window, text: &mut Told) -> bool {
        window.begin();
        let answer = self.change();
        window.end();
        push_list(text, &answer)
    }

    fn show(&mut self, window: &mut Window, turn: &mut Turn) {
        shown!(
            turn,
            window,
            |text| self.push_value(text),
            |window, text| self.push_answer(window, text)
        )
    }
}

/// A change of a list.
pub(crate) fn show<K: Keeps<u32>>(
    window: &mut Window,
    scene: Scene<'_>,
    turn: &mut Turn,
) -> Result<()> {
    let mut lists: Lists<'_, K> = lists_of(window.alloc, scene.call, scene.number)?;
    lists.show(window, turn);
    Ok(())
}

//! The line of an answer, put together from the tokens of JSON.
ghost use Rattle.std.specs.Prelude.{◌≡◌, ◌++◌, ◌∷◌, [], OnOk};
ghost use Rattle.json.specs.Lex.{tokens};
ghost use Rattle.json.specs.Print.{print};
ghost use Rattle.json.specs.Token.{begin_array, begin_object, end_array, end_object, key};
ghost use Rattle.serde_json.specs.Data.{null, number as number_of};
ghost use Rattle.report_json.specs.Changes.{flag};
ghost use Rattle.serde_json.specs.Find.{of_integer};
ghost use Rattle.report_json.specs.Json.{count, optional, text, value_json};
ghost use Rattle.report_json.specs.Tokens.{Tells, TellsMember};

use act_expr::Value;
use json::Writer;
use std::alloc::{AllocError, Global};
use std::marker::Model;

/// A line to which tokens are added. Contracts see it as its tokens.
#[derive(Drop)]
pub(crate) struct Line {
    writer: Writer,
}

impl Model for Line {
    ghost use Rattle.std.specs.Prelude.{◌≡◌, List, []};
    ghost use Rattle.json.specs.Token.{Token, tokens_code};

    ghost Value = { List Token };

    ghost coded = { tokens_code };

    ghost view = { λ line. line.writer.tokens };

    ghost invariant = { λ line. line.writer.before ≡ [] };
}

impl Line {
    /// A line without tokens.
    pub(crate) fn new(alloc: Global) -> Line
        ensures { result ≡ [] }
    {
        Line {
            writer: Writer::new(Vec::new(alloc)),
        }
    }

    /// Begins an object.
    pub(crate) fn begin_object(&mut self) -> Result<(), AllocError>
        ensures { OnOk result (self.new ≡ self.old ++ begin_object ∷ []) }
    {
        self.writer.begin_object()
    }

    /// Ends an object.
    pub(crate) fn end_object(&mut self) -> Result<(), AllocError>
        ensures { OnOk result (self.new ≡ self.old ++ end_object ∷ []) }
    {
        self.writer.end_object()
    }

    /// Begins a list.
    pub(crate) fn begin_list(&mut self) -> Result<(), AllocError>
        ensures { OnOk result (self.new ≡ self.old ++ begin_array ∷ []) }
    {
        self.writer.begin_array()
    }

    /// Ends a list.
    pub(crate) fn end_list(&mut self) -> Result<(), AllocError>
        ensures { OnOk result (self.new ≡ self.old ++ end_array ∷ []) }
    {
        self.writer.end_array()
    }

    /// Adds a text.
    pub(crate) fn string(&mut self, content: &str) -> Result<(), AllocError>
        ensures { OnOk result (Tells (text content.now) self.old self.new) }
    {
        self.writer.string(content)
    }

    /// Adds a number.
    pub(crate) fn number(&mut self, number: u64) -> Result<(), AllocError>
        ensures { OnOk result (Tells (count number) self.old self.new) }
    {
        self.writer.u64(number)
    }

    /// Adds a number, or null where there is none.
    pub(crate) fn optional_number(&mut self, number: Option<u64>) -> Result<(), AllocError>
        ensures { OnOk result (Tells (optional count number) self.old self.new) }
    {
        match number {
            Some(number) => self.number(number),
            None => self.null(),
        }
    }

    // Adds a number, which may be below 0.
    fn integer(&mut self, number: i64) -> Result<(), AllocError>
        ensures { OnOk result (Tells (number_of (of_integer number)) self.old self.new) }
    {
        self.writer.i64(number)
    }

    // Adds a value of a stage: a number or null.
    fn number_or_null(&mut self, value: Value) -> Result<(), AllocError>
        ensures { OnOk result (Tells (value_json value) self.old self.new) }
    {
        match value {
            Value::Num(number) => self.integer(number),
            Value::Null => self.null(),
        }
    }

    /// Adds null.
    pub(crate) fn null(&mut self) -> Result<(), AllocError>
        ensures { OnOk result (Tells null self.old self.new) }
    {
        self.writer.null()
    }

    // Adds whether something holds.
    fn boolean(&mut self, holds: bool) -> Result<(), AllocError>
        ensures { OnOk result (Tells (flag holds) self.old self.new) }
    {
        self.writer.boolean(holds)
    }

    /// Adds the name of a member, before the member itself.
    pub(crate) fn name(&mut self, name: &str) -> Result<(), AllocError>
        ensures { OnOk result (self.new ≡ self.old ++ key name.now ∷ []) }
    {
        self.writer.key(name)
    }

    /// Adds a member that is null.
    pub(crate) fn none(&mut self, name: &str) -> Result<(), AllocError>
        ensures { OnOk result (TellsMember name.now null self.old self.new) }
    {
        self.name(name)?;
        self.null()
    }

    /// Adds a member that is a value of a stage: a number or null.
    pub(crate) fn stage_value(&mut self, name: &str, value: Value) -> Result<(), AllocError>
        ensures { OnOk result (TellsMember name.now (value_json value) self.old self.new) }
    {
        self.name(name)?;
        self.number_or_null(value)
    }

    /// Adds a member that says whether something holds.
    pub(crate) fn flag(&mut self, name: &str, holds: bool) -> Result<(), AllocError>
        ensures { OnOk result (TellsMember name.now (flag holds) self.old self.new) }
    {
        self.name(name)?;
        self.boolean(holds)
    }

    /// Adds a member that is a text.
    pub(crate) fn text(&mut self, name: &str, content: &str) -> Result<(), AllocError>
        ensures { OnOk result (TellsMember name.now (text content.now) self.old self.new) }
    {
        self.name(name)?;
        self.string(content)
    }

    /// Adds a member that is a number.
    pub(crate) fn count(&mut self, name: &str, number: u64) -> Result<(), AllocError>
        ensures { OnOk result (TellsMember name.now (count number) self.old self.new) }
    {
        self.name(name)?;
        self.number(number)
    }

    /// Adds a member that is a number, or null where there is none.
    pub(crate) fn optional_count(
        &mut self,
        name: &str,
        number: Option<u64>,
    ) -> Result<(), AllocError>
        ensures { OnOk result (TellsMember name.now (optional count number) self.old self.new) }
    {
        self.name(name)?;
        self.optional_number(number)
    }

    /// The bytes of the line.
    pub(crate) fn into_bytes(self) -> Vec<u8>
        ensures bytes { result.items ≡ print self }
        ensures reads_back { tokens (print self) ≡ self }
    {
        let Line { writer } = self;
        writer.into_inner()
    }
}

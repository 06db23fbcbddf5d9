//! The members of traces.
ghost use Rattle.std.specs.Prelude.{◌≡◌};
ghost use Rattle.trace_spans.specs.MemberTexts.{member_text};

use std::fmt;

/// A member of a trace in JSON.
#[derive(Clone, Copy, PartialEq, Eq, Debug)]
pub enum Member {
    ResourceSpans,
    Batches,
    Result,
    Trace,
    ResourceMetrics,
    ResourceLogs,
    Resource,
    ScopeSpans,
    InstrumentationLibrarySpans,
    Spans,
    Attributes,
    Key,
    Value,
    StringValue,
    OtlpTrace,
    OtlpSpan,
    OtlpParent,
    Name,
    Kind,
    StartTimeUnixNano,
    EndTimeUnixNano,
    Links,
    Status,
    Code,
    Events,
    Data,
    Processes,
    Process,
    OwnProcess,
    ServiceName,
    JaegerTrace,
    JaegerSpan,
    JaegerParent,
    OperationName,
    References,
    RefType,
    StartTime,
    Duration,
    Tags,
    Logs,
    Fields,
    ZipkinSpan,
    ZipkinParent,
    Timestamp,
    LocalEndpoint,
    Ipv4,
    Shared,
}

impl Member {
    /// The member's name in JSON, by which a fault of shape is printed too.
    pub fn text(self) -> &'static str
        ensures { result.now ≡ member_text self }
    {
        match self {
            Member::ResourceSpans => "resourceSpans",
            Member::Batches => "batches",
            Member::Result => "result",
            Member::Trace => "trace",
            Member::ResourceMetrics => "resourceMetrics",
            Member::ResourceLogs => "resourceLogs",
            Member::Resource => "resource",
            Member::ScopeSpans => "scopeSpans",
            Member::InstrumentationLibrarySpans => "instrumentationLibrarySpans",
            Member::Spans => "spans",
            Member::Attributes => "attributes",
            Member::Key => "key",
            Member::Value => "value",
            Member::StringValue => "stringValue",
            Member::OtlpTrace => "traceId",
            Member::OtlpSpan => "spanId",
            Member::OtlpParent => "parentSpanId",
            Member::Name => "name",
            Member::Kind => "kind",
            Member::StartTimeUnixNano => "startTimeUnixNano",
            Member::EndTimeUnixNano => "endTimeUnixNano",
            Member::Links => "links",
            Member::Status => "status",
            Member::Code => "code",
            Member::Events => "events",
            Member::Data => "data",
            Member::Processes => "processes",
            Member::Process => "processID",
            Member::OwnProcess => "process",
            Member::ServiceName => "serviceName",
            Member::JaegerTrace => "traceID",
            Member::JaegerSpan => "spanID",
            Member::JaegerParent => "parentSpanID",
            Member::OperationName => "operationName",
            Member::References => "references",
            Member::RefType => "refType",
            Member::StartTime => "startTime",
            Member::Duration => "duration",
            Member::Tags => "tags",
            Member::Logs => "logs",
            Member::Fields => "fields",
            Member::ZipkinSpan => "id",
            Member::ZipkinParent => "parentId",
            Member::Timestamp => "timestamp",
            Member::LocalEndpoint => "localEndpoint",
            Member::Ipv4 => "ipv4",
            Member::Shared => "shared",
        }
    }
}

impl fmt::Display for Member {
    ghost use Rattle.std.specs.Prelude.{Some};

    ghost output = { λ member. Some (member_text member) };

    fn fmt<W: fmt::Write>(&self, f: &mut fmt::Formatter<W>) -> fmt::Result {
        f.write_str(self.text())
    }
}

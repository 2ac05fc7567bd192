ghost use Rattle.std.specs.Prelude.{◌≡◌, option_copied};
ghost use Rattle.serde_json.specs.View.{view};
ghost use Rattle.cq_request.specs.declared.row.Name.TheVariants as name;
ghost use Rattle.cq_request.specs.Rows as rows;

use crate::condition::is_condition_list;
use crate::member::text_at;
use crate::table::{Ruled, fault_in};
use cq_names::is_project;
use serde_json::Value;

/// What can be asked for.
#[derive(Clone, Copy, Debug, PartialEq, Eq)]
pub enum Op {
    Put,
    Drop,
    Gate,
    Files,
    Groups,
    Measures,
    Verdict,
    Functions,
    State,
}

/// The fields that requests have.
#[derive(Clone, Copy, Debug, PartialEq, Eq)]
pub(crate) enum Name {
    Project,
    Path,
    Lang,
    Text,
    Conditions,
    Min,
    At,
    Finish,
    Scope,
    Since,
}

/// A field of a request, and whether it has to be there.
#[derive(Clone, Copy, Debug, PartialEq, Eq)]
pub(crate) struct Field {
    pub name: Name,
    pub is_needed: bool,
}

// Those that are required, and those that are optional.

const PROJECT: Field = Field {
    name: Name::Project,
    is_needed: true,
};

const PATH: Field = Field {
    name: Name::Path,
    is_needed: true,
};

const LANG: Field = Field {
    name: Name::Lang,
    is_needed: true,
};

const TEXT: Field = Field {
    name: Name::Text,
    is_needed: true,
};

const CONDITIONS: Field = Field {
    name: Name::Conditions,
    is_needed: true,
};

const MAYBE_MIN: Field = Field {
    name: Name::Min,
    is_needed: false,
};

const MAYBE_PATH: Field = Field {
    name: Name::Path,
    is_needed: false,
};

const MAYBE_AT: Field = Field {
    name: Name::At,
    is_needed: false,
};

const MAYBE_FINISH: Field = Field {
    name: Name::Finish,
    is_needed: false,
};

const MAYBE_SCOPE: Field = Field {
    name: Name::Scope,
    is_needed: false,
};

const MAYBE_SINCE: Field = Field {
    name: Name::Since,
    is_needed: false,
};

const PUT: [Field; 4] = [PROJECT, PATH, LANG, TEXT];

const DROP: [Field; 2] = [PROJECT, PATH];

const GATE: [Field; 2] = [PROJECT, CONDITIONS];

const FILES: [Field; 3] = [PROJECT, MAYBE_AT, MAYBE_FINISH];

const GROUPS: [Field; 5] = [PROJECT, MAYBE_MIN, MAYBE_PATH, MAYBE_AT, MAYBE_FINISH];

const MEASURES: [Field; 7] = [
    PROJECT,
    MAYBE_MIN,
    MAYBE_PATH,
    MAYBE_AT,
    MAYBE_FINISH,
    MAYBE_SCOPE,
    MAYBE_SINCE,
];

const VERDICT: [Field; 6] = [
    PROJECT,
    MAYBE_MIN,
    MAYBE_AT,
    MAYBE_FINISH,
    MAYBE_SCOPE,
    MAYBE_SINCE,
];

const FUNCTIONS: [Field; 4] = [PROJECT, PATH, MAYBE_AT, MAYBE_FINISH];

/// The fields of a request, in the order in which they are checked.
fn row_of(op: Op) -> &'static [Field]
    ensures { result.now ≡ rows.row_of op }
{
    match op {
        Op::Put => &PUT,
        Op::Drop => &DROP,
        Op::Gate => &GATE,
        Op::Files => &FILES,
        Op::Groups => &GROUPS,
        Op::Measures => &MEASURES,
        Op::Verdict => &VERDICT,
        Op::Functions => &FUNCTIONS,
        Op::State => &[],
    }
}

fn op_named(word: &str) -> Option<Op>
    ensures { result ≡ rows.op_named word.now }
{
    match word {
        "put" => Some(Op::Put),
        "drop" => Some(Op::Drop),
        "gate" => Some(Op::Gate),
        "files" => Some(Op::Files),
        "groups" => Some(Op::Groups),
        "measures" => Some(Op::Measures),
        "verdict" => Some(Op::Verdict),
        "functions" => Some(Op::Functions),
        "state" => Some(Op::State),
        _ => None,
    }
}

/// What an object asks for, if it names a request.
pub fn op_of(value: &Value) -> Option<Op>
    ensures { result ≡ rows.op_of (view value.now) }
{
    op_named(text_at(value, "op")?)
}

fn key_of(name: Name) -> &'static str
    ensures { result.now ≡ rows.key_of name }
{
    match name {
        Name::Project => "project",
        Name::Path => "path",
        Name::Lang => "lang",
        Name::Text => "text",
        Name::Conditions => "conditions",
        Name::Min => "min",
        Name::At => "at",
        Name::Finish => "finish",
        Name::Scope => "scope",
        Name::Since => "since",
    }
}

fn is_project_value(value: &Value) -> bool
    ensures { result ≡ rows.is_of_form name.Project (view value.now) }
{
    match value.as_str() {
        Some(name) => is_project(name.as_bytes()),
        None => false,
    }
}

fn is_of_form(name: Name, value: &Value) -> bool
    ensures { result ≡ rows.is_of_form name (view value.now) }
{
    match name {
        Name::Project => is_project_value(value),
        Name::Path | Name::Lang | Name::Text | Name::Scope => value.is_string(),
        Name::Conditions => is_condition_list(value),
        Name::Min | Name::At | Name::Since => value.is_u64(),
        Name::Finish => value.is_boolean(),
    }
}

impl Ruled for Field {
    ghost rule = { rows.rule_of };

    fn key(&self) -> &'static str {
        key_of(self.name)
    }

    fn is_needed(&self) -> bool {
        self.is_needed
    }

    fn is_of_form(&self, value: &Value) -> bool {
        is_of_form(self.name, value)
    }
}

/// The member for which an object is refused that asks for this, if there is one.
pub(crate) fn fault_of<'v>(op: Op, value: &'v Value) -> Option<&'v str>
    ensures { option_copied result ≡ rows.fault_of op (view value.now) }
{
    fault_in("op", row_of(op), value)
}

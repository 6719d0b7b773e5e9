//! What a request asks for: requests whose value goes into a register or nowhere are one kind.

ghost use Rattle.std.specs.Prelude.{◌≡◌};
ghost use Rattle.step_requests.specs.Asked.{asked_of};

use flow_text::Text;
use js_number::Primitive;
use js_values::{Class, Key};
use native_protocol::{ErrorKind, GivenMarks, Reg, RegList, Request};
use origin_labels::OriginList;

/// What is done at once, and comes to one value.
#[derive(Drop)]
pub(crate) enum Effect {
    Make {
        value: Primitive,
    },
    Copy {
        from: Reg,
    },
    Same {
        a: Reg,
        b: Reg,
    },
    Has {
        base: Reg,
        key: Key,
    },
    Delete {
        base: Reg,
        key: Key,
    },
    Keys {
        base: Reg,
        all: bool,
    },
    Proto {
        base: Reg,
    },
    Extensible {
        base: Reg,
    },
    Prevent {
        base: Reg,
    },
    New {
        class: Class,
        proto: Option<Reg>,
    },
    Bind {
        target: Reg,
        this: Reg,
        args: RegList,
    },
    ReadLine {
        name: Reg,
    },
    Label {
        from: Reg,
        origins: OriginList,
    },
    RaiseStructure {
        base: Reg,
        origins: OriginList,
    },
    RaiseExistence {
        base: Reg,
        key: Key,
        origins: OriginList,
    },
}

/// Where the four parts of what is known of an own property go.
#[derive(Clone, Copy)]
pub(crate) struct OwnRegisters {
    pub marks: Reg,
    pub value: Reg,
    pub get: Reg,
    pub set: Reg,
}

/// What a definition gives: attributes, and registers with a value, a getter and a setter.
#[derive(Clone, Copy)]
pub(crate) struct GivenParts {
    pub marks: GivenMarks,
    pub value: Option<Reg>,
    pub get: Option<Reg>,
    pub set: Option<Reg>,
}

/// What is asked for. The value of an effect goes into a register, if one is named.
#[derive(Drop)]
pub(crate) enum Asked {
    Does(Effect, Option<Reg>),
    Look {
        reg: Reg,
    },
    Get {
        base: Reg,
        key: Key,
        to: Reg,
    },
    Put {
        base: Reg,
        key: Key,
        from: Reg,
    },
    Own {
        base: Reg,
        key: Key,
        to: OwnRegisters,
    },
    Define {
        base: Reg,
        key: Key,
        given: GivenParts,
    },
    PrintLine {
        name: Reg,
        from: Reg,
    },
    Call {
        callee: Reg,
        this: Reg,
        args: RegList,
        to: Reg,
    },
    Construct {
        callee: Reg,
        args: RegList,
        to: Reg,
    },
    Return {
        from: Reg,
    },
    Throw {
        from: Reg,
    },
    ThrowNew {
        kind: ErrorKind,
    },
    Leave {
        name: Text,
    },
}

/// What a request asks for.
pub(crate) fn asked_of(request: Request) -> Asked
    ensures { result ≡ asked_of request }
{
    match request {
        Request::Look { reg } => Asked::Look { reg },
        Request::Make { value, to } => Asked::Does(Effect::Make { value }, Some(to)),
        Request::Copy { from, to } => Asked::Does(Effect::Copy { from }, Some(to)),
        Request::Same { a, b, to } => Asked::Does(Effect::Same { a, b }, Some(to)),
        Request::Get { base, key, to } => Asked::Get { base, key, to },
        Request::Has { base, key, to } => Asked::Does(Effect::Has { base, key }, Some(to)),
        Request::Put { base, key, from } => Asked::Put { base, key, from },
        Request::Delete { base, key, to } => Asked::Does(Effect::Delete { base, key }, Some(to)),
        Request::Own {
            base,
            key,
            marks,
            value,
            get,
            set,
        } => Asked::Own {
            base,
            key,
            to: OwnRegisters {
                marks,
                value,
                get,
                set,
            },
        },
        Request::Define {
            base,
            key,
            marks,
            value,
            get,
            set,
        } => Asked::Define {
            base,
            key,
            given: GivenParts {
                marks,
                value,
                get,
                set,
            },
        },
        Request::Keys { base, all, to } => Asked::Does(Effect::Keys { base, all }, Some(to)),
        Request::Proto { base, to } => Asked::Does(Effect::Proto { base }, Some(to)),
        Request::Extensible { base, to } => Asked::Does(Effect::Extensible { base }, Some(to)),
        Request::Prevent { base } => Asked::Does(Effect::Prevent { base }, None),
        Request::New { class, proto, to } => Asked::Does(Effect::New { class, proto }, Some(to)),
        Request::Call {
            callee,
            this,
            args,
            to,
        } => Asked::Call {
            callee,
            this,
            args,
            to,
        },
        Request::Construct { callee, args, to } => Asked::Construct { callee, args, to },
        Request::Bind {
            target,
            this,
            args,
            to,
        } => Asked::Does(Effect::Bind { target, this, args }, Some(to)),
        Request::ReadLine { name, to } => Asked::Does(Effect::ReadLine { name }, Some(to)),
        Request::PrintLine { name, from } => Asked::PrintLine { name, from },
        Request::Label { from, origins, to } => {
            Asked::Does(Effect::Label { from, origins }, Some(to))
        }
        Request::RaiseStructure { base, origins } => {
            Asked::Does(Effect::RaiseStructure { base, origins }, None)
        }
        Request::RaiseExistence { base, key, origins } => {
            Asked::Does(Effect::RaiseExistence { base, key, origins }, None)
        }
        Request::Return { from } => Asked::Return { from },
        Request::Throw { from } => Asked::Throw { from },
        Request::ThrowNew { kind } => Asked::ThrowNew { kind },
        Request::Leave { name } => Asked::Leave { name },
    }
}

//! A call of any of the built-ins.

ghost use Rattle.std.specs.Prelude.{◌≡◌, IfOk};
ghost use Rattle.native_protocol.specs.Sets.{seen_entry};
ghost use Rattle.object_natives.specs.declared.call.Call.TheVariants as call;
ghost use Rattle.object_natives.specs.Dispatch.{call_begin, call_asks, call_after, state_asks, state_after, wrapped};
ghost use Rattle.native_protocol.specs.declared.request.Request.TheVariants.{Leave};
ghost use Rattle.object_natives.specs.Table.{path};

use crate::table::{BuiltIn, Row};
use flow_text::{OutOfMemory, Text};
use native_protocol::{Answer, Progress, Request};
use object_functions::{
    AncestorCall, DefiningCall, IntegrityCall, ObjectCall, OwnTestCall, PropertyCall,
    ReflectionCall, ThisCall,
};
use primitive_natives::{BooleanCall, Ending, MathCall, NumberCall};
use std::alloc::Global;

/// What a call is at: one of the machines, a name that isn't offered, or an ending.
#[derive(Drop)]
pub enum Call {
    Ancestor(AncestorCall),
    Boolean(BooleanCall),
    Defining(DefiningCall),
    Integrity(IntegrityCall),
    Math(MathCall),
    Number(NumberCall),
    Object(ObjectCall),
    OwnTest(OwnTestCall),
    Property(PropertyCall),
    Reflection(ReflectionCall),
    This(ThisCall),
    LeftOut { name: Text },
    Ends(Ending),
}

/// A call that has begun, or goes on.
#[derive(Drop)]
pub enum ObjectState {
    Begun(Call),
    Running(Call),
}

impl ObjectState {
    /// What it asks for.
    pub(crate) fn request(&self, alloc: Global) -> Result<Request, OutOfMemory>
        ensures { IfOk result (λ request. request ≡ state_asks self.now) }
    {
        match self {
            ObjectState::Begun(call) => call.request(alloc),
            ObjectState::Running(call) => call.request(alloc),
        }
    }

    /// Where an answer leads. The first one tells that it begins.
    pub(crate) fn after(self, alloc: Global, answer: Answer) -> Result<ObjectState, OutOfMemory>
        ensures { IfOk result (λ state. state ≡ state_after self answer) }
    {
        match self {
            ObjectState::Begun(call) => Ok(ObjectState::Running(call)),
            ObjectState::Running(call) => Ok(ObjectState::Running(call.after(alloc, answer)?)),
        }
    }
}

impl Call {
    /// How the built-in of a row begins.
    pub(crate) fn start(
        alloc: Global,
        row: Row,
        argc: u64,
        construct: bool,
    ) -> Result<Call, OutOfMemory>
        ensures { IfOk result (λ call. call ≡ call_begin row.entry.4 (seen_entry row.entry.0.now row.entry.1.now row.entry.2 row.entry.3) argc construct) }
    {
        let (holder, name, _, _, built_in) = row;
        Ok(match built_in {
            BuiltIn::LeftOut => Call::LeftOut {
                name: path(alloc, holder, name)?,
            },
            BuiltIn::Object => Call::Object(ObjectCall::start(argc)?),
            BuiltIn::Boolean(function) => boolean(BooleanCall::start(function, argc, construct)?),
            BuiltIn::Number(function) => number(NumberCall::start(function, argc, construct)?),
            BuiltIn::Math(function) => math(MathCall::start(function, argc)?),
            BuiltIn::Reflection(function) => {
                Call::Reflection(ReflectionCall::start(function, argc)?)
            }
            BuiltIn::Property(function) => Call::Property(PropertyCall::start(function, argc)?),
            BuiltIn::Defining(function) => Call::Defining(DefiningCall::start(function, argc)?),
            BuiltIn::Integrity(function) => Call::Integrity(IntegrityCall::start(function, argc)?),
            BuiltIn::This(function) => Call::This(ThisCall::start(function, argc)?),
            BuiltIn::OwnTest(test) => Call::OwnTest(OwnTestCall::start(test, argc)?),
            BuiltIn::IsPrototypeOf => Call::Ancestor(AncestorCall::start(argc)?),
        })
    }

    /// What it asks for.
    pub(crate) fn request(&self, alloc: Global) -> Result<Request, OutOfMemory>
        ensures { IfOk result (λ request. request ≡ call_asks self.now) }
    {
        match self {
            Call::Ancestor(call) => Ok(call.request()),
            Call::Boolean(call) => Ok(call.request()),
            Call::Defining(call) => call.request(alloc),
            Call::Integrity(call) => call.request(alloc),
            Call::Math(call) => call.request(alloc),
            Call::Number(call) => call.request(alloc),
            Call::Object(call) => Ok(call.request()),
            Call::OwnTest(call) => call.request(alloc),
            Call::Property(call) => call.request(alloc),
            Call::Reflection(call) => Ok(call.request()),
            Call::This(call) => Ok(call.request()),
            Call::LeftOut { name } => left_out(alloc, name),
            Call::Ends(ending) => ending.request(alloc),
        }
    }

    /// Where an answer leads.
    pub(crate) fn after(self, alloc: Global, answer: Answer) -> Result<Call, OutOfMemory>
        ensures { IfOk result (λ call. call ≡ call_after self answer) }
    {
        Ok(match self {
            Call::Ancestor(call) => ancestor(call.after(answer)),
            Call::Boolean(call) => boolean(call.after(alloc, answer)?),
            Call::Defining(call) => defining(call.after(alloc, answer)?),
            Call::Integrity(call) => integrity(call.after(alloc, answer)),
            Call::Math(call) => math(call.after(answer)?),
            Call::Number(call) => number(call.after(answer)),
            Call::Object(call) => object(call.after(answer)),
            Call::OwnTest(call) => own_test(call.after(alloc, answer)?),
            Call::Property(call) => property(call.after(alloc, answer)?),
            Call::Reflection(call) => reflection(call.after(answer)),
            Call::This(call) => this(call.after(alloc, answer)?),
            Call::LeftOut { name } => Call::LeftOut { name },
            Call::Ends(ending) => Call::Ends(ending.after()),
        })
    }
}

// The run is left by a name.
fn left_out(alloc: Global, name: &Text) -> Result<Request, OutOfMemory>
    ensures { IfOk result (λ request. request ≡ Leave name.now) }
{
    let name = name.copy(alloc)?;
    Ok(Request::Leave { name })
}

// The path of what isn't offered: a global name alone, and any other behind its holder.
fn path(alloc: Global, holder: &str, name: &str) -> Result<Text, OutOfMemory>
    ensures { IfOk result (λ text. text ≡ path holder.now name.now) }
{
    if holder == "global" {
        return Text::spelled(alloc, name);
    }
    let mut text = Text::spelled(alloc, holder)?;
    text.push(u16::from(b'.'))?;
    text.push_units(Text::spelled(alloc, name)?.units())?;
    Ok(text)
}

fn ancestor(progress: Progress<AncestorCall, Ending>) -> Call
    ensures { result ≡ wrapped call.Ancestor progress }
{
    match progress {
        Progress::Going(call) => Call::Ancestor(call),
        Progress::Ready(ending) => Call::Ends(ending),
    }
}

fn boolean(progress: Progress<BooleanCall, Ending>) -> Call
    ensures { result ≡ wrapped call.Boolean progress }
{
    match progress {
        Progress::Going(call) => Call::Boolean(call),
        Progress::Ready(ending) => Call::Ends(ending),
    }
}

fn defining(progress: Progress<DefiningCall, Ending>) -> Call
    ensures { result ≡ wrapped call.Defining progress }
{
    match progress {
        Progress::Going(call) => Call::Defining(call),
        Progress::Ready(ending) => Call::Ends(ending),
    }
}

fn integrity(progress: Progress<IntegrityCall, Ending>) -> Call
    ensures { result ≡ wrapped call.Integrity progress }
{
    match progress {
        Progress::Going(call) => Call::Integrity(call),
        Progress::Ready(ending) => Call::Ends(ending),
    }
}

fn math(progress: Progress<MathCall, Ending>) -> Call
    ensures { result ≡ wrapped call.Math progress }
{
    match progress {
        Progress::Going(call) => Call::Math(call),
        Progress::Ready(ending) => Call::Ends(ending),
    }
}

fn number(progress: Progress<NumberCall, Ending>) -> Call
    ensures { result ≡ wrapped call.Number progress }
{
    match progress {
        Progress::Going(call) => Call::Number(call),
        Progress::Ready(ending) => Call::Ends(ending),
    }
}

fn object(progress: Progress<ObjectCall, Ending>) -> Call
    ensures { result ≡ wrapped call.Object progress }
{
    match progress {
        Progress::Going(call) => Call::Object(call),
        Progress::Ready(ending) => Call::Ends(ending),
    }
}

fn own_test(progress: Progress<OwnTestCall, Ending>) -> Call
    ensures { result ≡ wrapped call.OwnTest progress }
{
    match progress {
        Progress::Going(call) => Call::OwnTest(call),
        Progress::Ready(ending) => Call::Ends(ending),
    }
}

fn property(progress: Progress<PropertyCall, Ending>) -> Call
    ensures { result ≡ wrapped call.Property progress }
{
    match progress {
        Progress::Going(call) => Call::Property(call),
        Progress::Ready(ending) => Call::Ends(ending),
    }
}

fn reflection(progress: Progress<ReflectionCall, Ending>) -> Call
    ensures { result ≡ wrapped call.Reflection progress }
{
    match progress {
        Progress::Going(call) => Call::Reflection(call),
        Progress::Ready(ending) => Call::Ends(ending),
    }
}

fn this(progress: Progress<ThisCall, Ending>) -> Call
    ensures { result ≡ wrapped call.This progress }
{
    match progress {
        Progress::Going(call) => Call::This(call),
        Progress::Ready(ending) => Call::Ends(ending),
    }
}

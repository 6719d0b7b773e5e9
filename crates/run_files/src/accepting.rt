//! The order of work before a run: the script, the policy, the observer, the input, the second input.

ghost use Rattle.std.specs.Prelude.{◌≡◌, ℕ, List, true, Err, IfOk, IfSome, option_copied};
ghost use Rattle.flow_io.specs.Files.{file_at, Rose, IsStoreKept};
ghost use Rattle.flow_policy.specs.Inputs.{IsGivenTo};
ghost use Rattle.js_ast.specs.IsMarked.{IsMarked};
ghost use Rattle.run_files.specs.Tasks.{Reaches, policy_at, input_in, read_at, second_at};
ghost use Rattle.run_files.specs.Accepting.{ReadsSource, AcceptsProgram, AcceptsScript, Accepts, Steps, IsGivenIfThere, IsRead};
ghost use Rattle.run_files.specs.Seen.{seen_request, seen_script, seen_accepted};

use crate::observers::accept_observer;
use crate::refusals::{Refusal, WhichInput};
use crate::sources::{check_program, script_of};
use flow_io::{LoadFault, Store, load};
use flow_policy::{InputFault, Inputs, Policy, PolicyFault, read_inputs, read_policy};
use js_ast::Program;
use origin_labels::OriginList;
use std::alloc::Global;

/// The most bytes of a source.
const SOURCE_LIMIT: usize = 1_048_576;

/// The most bytes of a policy.
const POLICY_LIMIT: usize = 65_536;

/// The most bytes of an input.
const INPUT_LIMIT: usize = 1_048_576;

/// The files of a run, or of two runs with two inputs, by their paths.
#[derive(Clone, Copy)]
pub struct Request<'a> {
    pub script: &'a str,
    pub policy: &'a str,
    /// The list of origins that the observer reads, where the request has an observer.
    pub observer: Option<&'a str>,
    pub input: &'a str,
    pub second: Option<&'a str>,
}

/// A script under a policy with its inputs, and the origins that the observer reads.
#[derive(Drop)]
pub struct Task {
    pub script: Program,
    pub policy: Policy,
    pub observer: Option<OriginList>,
    pub inputs: Inputs,
    pub second: Option<Inputs>,
}

/// Reads the files of a request: the script, then the policy with the observer's list, then the input, then the second input. The first that
/// is refused ends the work.
pub fn accept_task<'a, F: Store>(
    alloc: Global,
    request: &Request<'a>,
    store: &mut F,
) -> Result<Task, Refusal<'a>>
    requires asked { (path : List ℕ) → Reaches (F.contents store.old) (seen_request request.now) path → F.may_ask store.old path ≡ true }
    ensures kept { IsStoreKept F.contents F.may_ask F.faults store.old store.new }
    ensures accepts { Accepts (seen_request request.now) (F.contents store.old) (seen_accepted result) }
    ensures given { IfOk result (λ task. IsGivenTo task.policy task.inputs) }
    ensures second { IfOk result (λ task. IsGivenIfThere task.policy task.second) }
    ensures marked { IfOk result (λ task. IsMarked task.script) }
    ensures read_fault { result ≡ Err Refusal.ReadFault → Rose (F.faults store.old) (F.faults store.new) }
    ensures no_fault { IsRead result → F.faults store.new ≡ F.faults store.old }
{
    let script = accept_script(alloc, store, request.script)?;
    let policy = accept_policy(alloc, store, request.policy)?;
    let observer = accept_observer(alloc, &policy, request.observer)?;
    let inputs = accept_input(alloc, store, request.input, &policy, WhichInput::First)?;
    let second = accept_second(alloc, store, request.second, &policy)?;
    Ok(Task {
        script,
        policy,
        observer,
        inputs,
        second,
    })
}

/// Reads a source and checks that it is a program.
pub fn accept_program<'a, F: Store>(
    alloc: Global,
    store: &mut F,
    path: &str,
) -> Result<(), Refusal<'a>>
    requires { F.may_ask store.old path.now ≡ true }
    ensures kept { IsStoreKept F.contents F.may_ask F.faults store.old store.new }
    ensures accepts { AcceptsProgram (F.contents store.old) path.now result }
    ensures read_fault { result ≡ Err Refusal.ReadFault → Rose (F.faults store.old) (F.faults store.new) }
    ensures no_fault { IsRead result → F.faults store.new ≡ F.faults store.old }
{
    let bytes = source_bytes(alloc, store, path)?;
    check_program(alloc, &bytes)
}

/// Reads a script.
fn accept_script<'a, F: Store>(
    alloc: Global,
    store: &mut F,
    path: &str,
) -> Result<Program, Refusal<'a>>
    requires { F.may_ask store.old path.now ≡ true }
    ensures kept { IsStoreKept F.contents F.may_ask F.faults store.old store.new }
    ensures marked { IfOk result IsMarked }
    ensures accepts { AcceptsScript (F.contents store.old) path.now (seen_script result) }
    ensures read_fault { result ≡ Err Refusal.ReadFault → Rose (F.faults store.old) (F.faults store.new) }
    ensures no_fault { IsRead result → F.faults store.new ≡ F.faults store.old }
{
    let bytes = source_bytes(alloc, store, path)?;
    script_of(alloc, &bytes)
}

/// Reads the bytes of a source.
#[tactic(auto, unfolding(crate::specs::Sources::source_text))]
fn source_bytes<'a, F: Store>(
    alloc: Global,
    store: &mut F,
    path: &str,
) -> Result<Vec<u8>, Refusal<'a>>
    requires { F.may_ask store.old path.now ≡ true }
    ensures kept { IsStoreKept F.contents F.may_ask F.faults store.old store.new }
    ensures reads { ReadsSource (F.contents store.old) path.now result }
    ensures read_fault { result ≡ Err Refusal.ReadFault → Rose (F.faults store.old) (F.faults store.new) }
    ensures no_fault { IsRead result → F.faults store.new ≡ F.faults store.old }
{
    match load(alloc, store, path, SOURCE_LIMIT) {
        Ok(bytes) => Ok(bytes),
        Err(LoadFault::TooLong { .. }) => Err(Refusal::LongSource),
        Err(LoadFault::ReadFault) => Err(Refusal::ReadFault),
        Err(LoadFault::OutOfMemory) => Err(Refusal::OutOfMemory),
    }
}

/// Reads a policy.
#[tactic(auto, unfolding(crate::specs::Tasks::policy_in))]
fn accept_policy<'a, F: Store>(
    alloc: Global,
    store: &mut F,
    path: &str,
) -> Result<Policy, Refusal<'a>>
    requires { F.may_ask store.old path.now ≡ true }
    ensures kept { IsStoreKept F.contents F.may_ask F.faults store.old store.new }
    ensures accepts { Steps (F.contents store.old) (λ files. policy_at files path.now) result }
    ensures read_fault { result ≡ Err Refusal.ReadFault → Rose (F.faults store.old) (F.faults store.new) }
    ensures no_fault { IsRead result → F.faults store.new ≡ F.faults store.old }
{
    let bytes = match load(alloc, store, path, POLICY_LIMIT) {
        Ok(bytes) => bytes,
        Err(LoadFault::TooLong { .. }) => return Err(Refusal::LongPolicy),
        Err(LoadFault::ReadFault) => return Err(Refusal::ReadFault),
        Err(LoadFault::OutOfMemory) => return Err(Refusal::OutOfMemory),
    };
    match read_policy(alloc, &bytes) {
        Ok(policy) => Ok(policy),
        Err(PolicyFault::Bad { line, kind }) => Err(Refusal::BadPolicy { line, kind }),
        Err(PolicyFault::OutOfMemory) => Err(Refusal::OutOfMemory),
    }
}

/// Reads an input of a policy.
#[tactic(auto, unfolding(crate::specs::Tasks::input_in))]
fn accept_input<'a, F: Store>(
    alloc: Global,
    store: &mut F,
    path: &str,
    policy: &Policy,
    input: WhichInput,
) -> Result<Inputs, Refusal<'a>>
    requires { F.may_ask store.old path.now ≡ true }
    ensures kept { IsStoreKept F.contents F.may_ask F.faults store.old store.new }
    ensures accepts { Steps (F.contents store.old) (λ files. read_at (input_in input policy.now) (file_at files path.now)) result }
    ensures given { IfOk result (λ inputs. IsGivenTo policy.now inputs) }
    ensures read_fault { result ≡ Err Refusal.ReadFault → Rose (F.faults store.old) (F.faults store.new) }
    ensures no_fault { IsRead result → F.faults store.new ≡ F.faults store.old }
{
    let bytes = match load(alloc, store, path, INPUT_LIMIT) {
        Ok(bytes) => bytes,
        Err(LoadFault::TooLong { .. }) => return Err(Refusal::LongInput { input }),
        Err(LoadFault::ReadFault) => return Err(Refusal::ReadFault),
        Err(LoadFault::OutOfMemory) => return Err(Refusal::OutOfMemory),
    };
    match read_inputs(alloc, policy, &bytes) {
        Ok(inputs) => Ok(inputs),
        Err(InputFault::Bad { line, kind }) => Err(Refusal::BadInput { input, line, kind }),
        Err(InputFault::OutOfMemory) => Err(Refusal::OutOfMemory),
    }
}

/// Reads the second input, where there is one.
fn accept_second<'a, F: Store>(
    alloc: Global,
    store: &mut F,
    path: Option<&str>,
    policy: &Policy,
) -> Result<Option<Inputs>, Refusal<'a>>
    requires { IfSome path (λ path. F.may_ask store.old path.now ≡ true) }
    ensures kept { IsStoreKept F.contents F.may_ask F.faults store.old store.new }
    ensures accepts { Steps (F.contents store.old) (λ files. second_at policy.now files (option_copied path.entry)) result }
    ensures given { IfOk result (λ second. IsGivenIfThere policy.now second) }
    ensures read_fault { result ≡ Err Refusal.ReadFault → Rose (F.faults store.old) (F.faults store.new) }
    ensures no_fault { IsRead result → F.faults store.new ≡ F.faults store.old }
{
    let Some(path) = path else {
        return Ok(None);
    };
    let inputs = accept_input(alloc, store, path, policy, WhichInput::Second)?;
    Ok(Some(inputs))
}

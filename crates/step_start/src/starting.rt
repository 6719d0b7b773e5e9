//! What a run holds when it begins.

ghost use Rattle.std.specs.Prelude.{◌≡◌, ℕ, [], ◌∷◌, IfOk, length, replicate};
ghost use Rattle.origin_labels.specs.Label.{Label};
ghost use Rattle.flow_policy.specs.Inputs.{Given};
ghost use Rattle.js_ast.specs.Functions.{functions_of};
ghost use Rattle.js_ast.specs.Views.{view_program};
ghost use Rattle.js_values.specs.Readings.{IsReading};
ghost use Rattle.es_meaning.specs.BuiltIns.{built_ins_of};
ghost use Rattle.es_meaning.specs.Plain.{may_declare, outermost};
ghost use Rattle.flow_meaning.specs.Tracked.{start};
ghost use Rattle.function_table.specs.Tables.{table};
ghost use Rattle.run_state.specs.Worlds.{Belongs, state_of};
ghost use Rattle.step_start.specs.First.{global_with};

use crate::entering::script_objects;
use env_records::Envs;
use flow_frames::Frames;
use flow_policy::Policy;
use flow_text::OutOfMemory;
use function_table::Functions;
use js_ast::Program;
use js_values::{Labelled, Value};
use native_protocol::Natives;
use origin_labels::Labels;
use plain_heap::{GLOBAL_OBJECT, text_of};
use run_state::World;
use std::alloc::Global;

/// What a run holds when it begins, and whether the script may declare its functions: where it may not, no statement is evaluated.
#[derive(Drop)]
pub struct Started<T> {
    pub world: World<T>,
    pub may_declare: bool,
}

// The record of the outermost code: it has `this`, which is the global object and can't be assigned.
fn outermost<T: Copy>(alloc: Global, label: T) -> Result<Envs<T>, OutOfMemory>
    ensures { IfOk result (λ records. records ≡ outermost (global_with label) ∷ []) }
{
    let mut records = Envs::new(alloc);
    let e = records.new_record(None)?;
    let name = text_of(alloc, "this")?;
    let value = Labelled {
        value: Value::Object(GLOBAL_OBJECT),
        label,
    };
    records.bind(e, name, false, value)?;
    Ok(records)
}

// No line of so many input channels was read.
fn no_lines_read(alloc: Global, channels: usize) -> Result<Vec<usize>, OutOfMemory>
    ensures { IfOk result (λ positions. positions.items ≡ replicate channels 0) }
{
    let mut positions = Vec::new(alloc);
    for _ in 0..channels {
        positions.push(0)?;
    }
    Ok(positions)
}

/// What a run of a program over a set of built-ins holds when it begins: the Root alone, the first objects with the functions and the variables that the script
/// declares, the record of the outermost code, and no line of an input channel is read. All labels are empty.
pub fn start<L: Labels, N: Natives>(
    alloc: Global,
    labels: &L,
    natives: &N,
    program: &Program,
    functions: &Functions<'_>,
    policy: &Policy,
) -> Result<Started<L::Label>, OutOfMemory>
    requires functions { table functions.now ≡ functions_of (view_program program.now) }
    ensures starts { IfOk result (λ s. (inputs : Given) (reading : L.Label → Label) → IsReading L.made L.meaning labels.now reading → (turns : ℕ) → state_of reading s.world [] turns ≡ start policy.now inputs (built_ins_of (N.entries natives.now) (N.begin natives.now) (N.after natives.now) (N.asks natives.now)) (view_program program.now) turns) }
    ensures may_declare { IfOk result (λ s. s.may_declare ≡ may_declare (built_ins_of (N.entries natives.now) (N.begin natives.now) (N.after natives.now) (N.asks natives.now)) (view_program program.now)) }
    ensures belongs { IfOk result (λ s. Belongs L.made L.meaning labels.now s.world) }
    ensures alone { IfOk result (λ s. length s.world.frames.frames ≡ 1) }
    ensures records { IfOk result (λ s. length s.world.records ≡ 1) }
    ensures positions { IfOk result (λ s. length s.world.positions.items ≡ length policy.now.inputs) }
{
    let label = labels.bottom();
    let entered = script_objects(alloc, natives, program, functions, label)?;
    let frames = Frames::new(alloc, labels)?;
    let records = outermost(alloc, label)?;
    let positions = no_lines_read(alloc, policy.inputs().len())?;
    let world = World {
        frames,
        heap: entered.heap.into_heap(),
        records,
        positions,
    };
    Ok(Started {
        world,
        may_declare: entered.may_declare,
    })
}

//! What a call of a function begins with, as far as it depends on the function alone.

ghost use Rattle.std.specs.Prelude.{◌≡◌, ◌<◌, ◌≤◌, ◌+◌, [], ◌∷◌, ◌++◌, IfOk, OnOk, length, take};
ghost use Rattle.std.specs.List.{All};
ghost use Rattle.origin_labels.specs.Stores.{IsKept};
ghost use Rattle.js_ast.specs.Trees.{params_of, body_of};
ghost use Rattle.js_ast.specs.Views.{view_function};
ghost use Rattle.js_values.specs.Readings.{HasValue};
ghost use Rattle.es_meaning.specs.Declared.{declared_functions};
ghost use Rattle.es_meaning.specs.Functions.{entry_bindings, entry_record};
ghost use Rattle.es_meaning.specs.Naming.{names_in_statements};
ghost use Rattle.call_records.specs.Joined.{ForJoined};
ghost use Rattle.call_records.specs.Planned.{layout_of};
ghost use Rattle.env_records.specs.Layouts.{laid};

use crate::entry::{Entry, fill, first_values};
use crate::naming::names_arguments;
use crate::placing::{Places, first_names, place_arguments, place_functions, place_parameters};
use crate::variables::in_list;
use env_records::{Envs, Layout};
use flow_text::OutOfMemory;
use js_ast::Function;
use js_values::{EnvId, Labelled};
use origin_labels::Labels;
use std::alloc::Global;
use std::marker::Model;
use std::rc::Rc;

/// The names of a call's record, which the records of all calls of the function share, with the places of those to which a
/// call gives values.
#[derive(Drop)]
pub struct CallLayout<'p> {
    function: &'p Function,
    names_arguments: bool,
    names: Rc<Layout>,
    places: Places,
}

impl<'p> Model for CallLayout<'p> {
    ghost use Rattle.std.specs.Coded.{codes};
    ghost use Rattle.js_ast.specs.declared.trees.Function.{Function as Node};
    ghost use Rattle.js_ast.specs.contracts.trees.Function as node;
    ghost use Rattle.js_ast.specs.Views.{view_function};
    ghost use Rattle.call_records.specs.Planned.{IsPlanned};

    ghost Value = { Node };

    ghost coded = { Prim.hlevel (codes, node.the_row.coded) };

    ghost view = { λ l. l.function.now };

    ghost invariant = { λ l. IsPlanned (view_function l.function.now) l.names_arguments l.names.value l.places.parameters.items l.places.functions.items l.places.arguments };
}

impl<'p> CallLayout<'p> {
    /// That of a function, by one walk over its body.
    pub fn of(alloc: Global, f: &'p Function) -> Result<CallLayout<'p>, OutOfMemory>
        ensures { IfOk result (λ l. l ≡ f.now) }
    {
        let mut names = first_names(alloc)?;
        let parameters = place_parameters(alloc, f.params.items(), &mut names)?;
        let functions = place_functions(alloc, &f.body, &mut names)?;
        let names_arguments = names_arguments(f);
        let arguments = place_arguments(alloc, names_arguments, &mut names)?;
        in_list(alloc, &f.body, &mut names)?;
        let names = Rc::new(alloc, names)?;
        let places = Places {
            parameters,
            functions,
            arguments,
        };
        Ok(CallLayout {
            function: f,
            names_arguments,
            names,
            places,
        })
    }

    /// Whether the code of the function names its `arguments` object.
    pub fn names_arguments(&self) -> bool
        ensures { result ≡ names_in_statements (body_of (view_function self.now)) }
    {
        self.names_arguments
    }

    /// Makes the record of a call of the function, which closes over the record `place`. The arguments depend on the context besides.
    pub fn enter<T: Copy, L: Labels<Label = T>>(
        &self,
        alloc: Global,
        labels: &mut L,
        records: &mut Envs<T>,
        place: EnvId,
        args: &[Labelled<T>],
        context: T,
        entry: Entry<T>,
    ) -> Result<EnvId, OutOfMemory>
        requires there { place.0 < length records.old }
        requires functions { length entry.functions.items ≡ length (declared_functions (body_of (view_function self.now))) }
        requires args { All (HasValue (L.made labels.old)) args.now }
        requires context { L.made labels.old context }
        ensures ok { OnOk result (ForJoined L.made L.meaning labels.new context (take (length (params_of (view_function self.now))) args.now) (λ vs. records.new ≡ records.old ++ entry_record (view_function self.now) place.0 (record { this = entry.this; function = entry.function; args = vs; missing = entry.missing; functions = entry.functions.items; arguments = entry.arguments }) ∷ [])) }
        ensures number { IfOk result (λ e. e.0 ≡ length records.old) }
        ensures length { OnOk result (length records.new ≡ length records.old + 1) }
        ensures longer { length records.old ≤ length records.new }
        ensures kept { IsKept L.made L.meaning L.room L.firm labels.old labels.new }
    {
        let values = self.values(alloc, labels, args, context, entry)?;
        let e = records.begin(Some(place), &self.names, values)?;
        Ok(e)
    }

    // The values of the record of a call, in the order of its names.
    #[inline(always)]
    fn values<T: Copy, L: Labels<Label = T>>(
        &self,
        alloc: Global,
        labels: &mut L,
        args: &[Labelled<T>],
        context: T,
        entry: Entry<T>,
    ) -> Result<Vec<Labelled<T>>, OutOfMemory>
        requires functions { length entry.functions.items ≡ length (declared_functions (body_of (view_function self.now))) }
        requires args { All (HasValue (L.made labels.old)) args.now }
        requires context { L.made labels.old context }
        ensures bindings { IfOk result (λ all. ForJoined L.made L.meaning labels.new context (take (length (params_of (view_function self.now))) args.now) (λ vs. laid (layout_of (view_function self.now)) all.items ≡ entry_bindings (view_function self.now) (record { this = entry.this; function = entry.function; args = vs; missing = entry.missing; functions = entry.functions.items; arguments = entry.arguments }))) }
        ensures length { IfOk result (λ all. length all.items ≡ length (layout_of (view_function self.now))) }
        ensures kept { IsKept L.made L.meaning L.room L.firm labels.old labels.new }
    {
        let Entry {
            this,
            function,
            missing,
            functions,
            arguments,
        } = entry;
        let mut values = first_values(alloc, self.names.len(), this, function, &missing)?;
        let places = &self.places;
        fill(
            alloc,
            labels,
            places,
            args,
            context,
            functions,
            arguments,
            &missing,
            &mut values,
        )?;
        Ok(values)
    }
}

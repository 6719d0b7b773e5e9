//! What lines ask for.

ghost use Rattle.std.specs.Prelude.{◌≡◌, IfOk, Some, None};
ghost use Rattle.native_programs.specs.Asking.{asks, reg_of, key_of, fresh_of, args_of, end_asks, reason_of, data_marks};
ghost use Rattle.native_protocol.specs.declared.request.Request.TheVariants as request;
ghost use Rattle.std.specs.Option.{option_map};

use crate::line::{Args, Ask, End, Fresh, Name, Place, Reason};
use crate::values::Values;
use flow_text::{OutOfMemory, Text};
use js_values::Class;
use native_protocol::{GivenMarks, Request};
use std::alloc::Global;

// Where a call puts a value that it gives.
const GIVEN: Place = Place::Free(2);

impl Values {
    /// What a line asks for.
    pub(crate) fn request(&self, alloc: Global, ask: Ask) -> Result<Request, OutOfMemory>
        ensures { IfOk result (λ request. request ≡ asks ask self.now) }
    {
        match ask {
            Ask::Get(base, name, to) => self.get(alloc, base, name, to),
            Ask::Has(base, name, to) => self.has(alloc, base, name, to),
            Ask::Put(base, name, from) => self.put(alloc, base, name, from),
            Ask::Delete(base, name, to) => self.delete(alloc, base, name, to),
            Ask::Define(base, name, from, seen) => self.define(alloc, base, name, from, seen),
            Ask::Copy(from, to) => self.copied(from, to),
            Ask::Same(a, b, to) => self.same(a, b, to),
            Ask::Make(fresh, to) => self.made(alloc, fresh, to),
            Ask::New(class, to) => self.created(class, None, to),
            Ask::NewFrom(class, proto, to) => self.created(class, Some(proto), to),
            Ask::Call(callee, this, args, to) => self.called(alloc, callee, this, args, to),
            Ask::Bind(target, this, args, to) => self.bound(alloc, target, this, args, to),
            Ask::ToObject(at) => self.look(at),
            Ask::Look(at, _, _) => self.look(at),
            Ask::Text(at, _, _, _) => self.look(at),
            Ask::Number(at, _, _, _, _) => self.look(at),
            Ask::Ends(end) => self.end(alloc, end),
        }
    }

    fn get(&self, alloc: Global, base: Place, name: Name, to: Place) -> Result<Request, OutOfMemory>
        ensures { IfOk result (λ r. r ≡ request.Get (reg_of self.now base) (key_of self.now name) (reg_of self.now to)) }
    {
        Ok(Request::Get {
            base: self.register(base)?,
            key: self.key(alloc, name)?,
            to: self.register(to)?,
        })
    }

    fn has(&self, alloc: Global, base: Place, name: Name, to: Place) -> Result<Request, OutOfMemory>
        ensures { IfOk result (λ r. r ≡ request.Has (reg_of self.now base) (key_of self.now name) (reg_of self.now to)) }
    {
        Ok(Request::Has {
            base: self.register(base)?,
            key: self.key(alloc, name)?,
            to: self.register(to)?,
        })
    }

    fn put(
        &self,
        alloc: Global,
        base: Place,
        name: Name,
        from: Place,
    ) -> Result<Request, OutOfMemory>
        ensures { IfOk result (λ r. r ≡ request.Put (reg_of self.now base) (key_of self.now name) (reg_of self.now from)) }
    {
        Ok(Request::Put {
            base: self.register(base)?,
            key: self.key(alloc, name)?,
            from: self.register(from)?,
        })
    }

    fn delete(
        &self,
        alloc: Global,
        base: Place,
        name: Name,
        to: Place,
    ) -> Result<Request, OutOfMemory>
        ensures { IfOk result (λ r. r ≡ request.Delete (reg_of self.now base) (key_of self.now name) (reg_of self.now to)) }
    {
        Ok(Request::Delete {
            base: self.register(base)?,
            key: self.key(alloc, name)?,
            to: self.register(to)?,
        })
    }

    fn define(
        &self,
        alloc: Global,
        base: Place,
        name: Name,
        from: Place,
        enumerable: bool,
    ) -> Result<Request, OutOfMemory>
        ensures { IfOk result (λ r. r ≡ request.Define (reg_of self.now base) (key_of self.now name) (data_marks enumerable) (Some (reg_of self.now from)) None None) }
    {
        Ok(Request::Define {
            base: self.register(base)?,
            key: self.key(alloc, name)?,
            marks: GivenMarks {
                writable: Some(true),
                enumerable: Some(enumerable),
                configurable: Some(true),
            },
            value: Some(self.register(from)?),
            get: None,
            set: None,
        })
    }

    fn copied(&self, from: Place, to: Place) -> Result<Request, OutOfMemory>
        ensures { IfOk result (λ r. r ≡ request.Copy (reg_of self.now from) (reg_of self.now to)) }
    {
        Ok(Request::Copy {
            from: self.register(from)?,
            to: self.register(to)?,
        })
    }

    fn same(&self, a: Place, b: Place, to: Place) -> Result<Request, OutOfMemory>
        ensures { IfOk result (λ r. r ≡ request.Same (reg_of self.now a) (reg_of self.now b) (reg_of self.now to)) }
    {
        Ok(Request::Same {
            a: self.register(a)?,
            b: self.register(b)?,
            to: self.register(to)?,
        })
    }

    fn made(&self, alloc: Global, fresh: Fresh, to: Place) -> Result<Request, OutOfMemory>
        ensures { IfOk result (λ r. r ≡ request.Make (fresh_of self.now fresh) (reg_of self.now to)) }
    {
        Ok(Request::Make {
            value: self.fresh(alloc, fresh)?,
            to: self.register(to)?,
        })
    }

    fn created(&self, class: Class, proto: Option<Place>, to: Place) -> Result<Request, OutOfMemory>
        ensures { IfOk result (λ r. r ≡ request.New class (option_map (reg_of self.now) proto) (reg_of self.now to)) }
    {
        let proto = match proto {
            Some(proto) => Some(self.register(proto)?),
            None => None,
        };
        Ok(Request::New {
            class,
            proto,
            to: self.register(to)?,
        })
    }

    fn called(
        &self,
        alloc: Global,
        callee: Place,
        this: Place,
        args: Args,
        to: Place,
    ) -> Result<Request, OutOfMemory>
        ensures { IfOk result (λ r. r ≡ request.Call (reg_of self.now callee) (reg_of self.now this) (args_of self.now args) (reg_of self.now to)) }
    {
        Ok(Request::Call {
            callee: self.register(callee)?,
            this: self.register(this)?,
            args: self.arguments(alloc, args)?,
            to: self.register(to)?,
        })
    }

    fn bound(
        &self,
        alloc: Global,
        target: Place,
        this: Place,
        args: Args,
        to: Place,
    ) -> Result<Request, OutOfMemory>
        ensures { IfOk result (λ r. r ≡ request.Bind (reg_of self.now target) (reg_of self.now this) (args_of self.now args) (reg_of self.now to)) }
    {
        Ok(Request::Bind {
            target: self.register(target)?,
            this: self.register(this)?,
            args: self.arguments(alloc, args)?,
            to: self.register(to)?,
        })
    }

    fn look(&self, at: Place) -> Result<Request, OutOfMemory>
        ensures { IfOk result (λ r. r ≡ request.Look (reg_of self.now at)) }
    {
        Ok(Request::Look {
            reg: self.register(at)?,
        })
    }

    // What the end of a call asks for.
    fn end(&self, alloc: Global, end: End) -> Result<Request, OutOfMemory>
        ensures { IfOk result (λ request. request ≡ end_asks end self.now) }
    {
        Ok(match end {
            End::Return(place) => Request::Return {
                from: self.register(place)?,
            },
            End::Give(fresh) => self.made(alloc, fresh, GIVEN)?,
            End::Throw(kind) => Request::ThrowNew { kind },
            End::Leave(reason) => Request::Leave {
                name: reason_name(alloc, reason)?,
            },
        })
    }
}

#[tactic(auto, using(crate::proofs::Words::words))]
fn reason_name(alloc: Global, reason: Reason) -> Result<Text, OutOfMemory>
    ensures { IfOk result (λ name. name ≡ reason_of reason) }
{
    match reason {
        Reason::Wrapper => Text::spelled(alloc, "wrapper"),
        Reason::Text => Text::spelled(alloc, "string"),
        Reason::Number => Text::spelled(alloc, "number"),
        Reason::Case => Text::spelled(alloc, "case"),
    }
}

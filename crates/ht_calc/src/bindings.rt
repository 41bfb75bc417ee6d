//! What is bound to names.
ghost use Rattle.std.specs.Prelude.{◌≡◌, ◌≢◌, ◌↔◌, ◌<◌, [], ◌∷◌, Some, None, length, IsTrue, IsOk, OnOk, OnErr, MatchOption};
ghost use Rattle.ht_calc.specs.Names.{rows_by_name, bound, bind, HasRoom, HasRoomFor};

use ht_pair::Element;
use ht_word::{Name, NoMemory};
use indexmap::IndexMap;
use std::alloc::Global;
use std::marker::Model;

// How many names may be bound.
const MAX_NAMES: usize = 256;

/// Names and the elements bound to them, in the order in which the names were first bound. Seen by
/// contracts as the list of the names and the elements.
#[derive(Drop)]
pub(crate) struct Bindings {
    elements: IndexMap<Name, Element>,
}

impl Model for Bindings {
    ghost use Rattle.std.specs.Prelude.{List, ℕ};
    ghost use Rattle.ht_pair.specs.Elements.{ElementValue};

    ghost Value = { List (List ℕ × ElementValue) };

    ghost view = { λ bindings. bindings.elements.entries };
}

impl Bindings {
    // No names. Takes no memory.
    pub(crate) fn new(alloc: Global) -> Bindings
        ensures { result ≡ [] }
    {
        Bindings {
            elements: IndexMap::new(alloc),
        }
    }

    // The number of names.
    pub(crate) fn len(&self) -> usize
        ensures { result ≡ length self.now }
    {
        self.elements.len()
    }

    // The element that is bound to a name. Constant time but for the bytes of the name.
    pub(crate) fn get(&self, name: &Name) -> Option<&Element>
        ensures { MatchOption result (bound self.now name.now ≡ None) (λ element. bound self.now name.now ≡ Some (element.now)) }
    {
        self.elements.get(name)
    }

    // Whether the name is bound or may be bound.
    pub(crate) fn has_room(&self, name: &Name) -> bool
        ensures { IsTrue result ↔ HasRoom self.now name.now }
    {
        self.get(name).is_some() || self.len() < MAX_NAMES
    }

    // Whether there is room for two names, the first one first.
    pub(crate) fn has_room_for_both(&self, first: &Name, second: &Name) -> bool
        ensures { IsTrue result ↔ HasRoomFor (rows_by_name self.now) (first.now ∷ second.now ∷ []) }
    {
        self.has_room(first) && (self.is_bound_behind(first, second) || self.is_room_left(first))
    }

    // Whether the second name is bound once the first one is.
    fn is_bound_behind(&self, first: &Name, second: &Name) -> bool
        ensures { IsTrue result ↔ (bound (bind (rows_by_name self.now) first.now []) second.now ≢ None) }
    {
        first == second || self.get(second).is_some()
    }

    // Whether there are fewer names than may be bound once the name is bound.
    fn is_room_left(&self, name: &Name) -> bool
        ensures { IsTrue result ↔ length (bind (rows_by_name self.now) name.now []) < 256 }
    {
        if self.get(name).is_some() {
            self.len() < MAX_NAMES
        } else {
            self.len() < MAX_NAMES - 1
        }
    }

    // Binds a name. One that is bound keeps its place, and takes no memory. After the refusal the
    // bindings are unchanged.
    pub(crate) fn bind(&mut self, name: Name, element: Element) -> Result<(), NoMemory>
        ensures ok { OnOk result (self.new ≡ bind self.old name element) }
        ensures err { OnErr result (self.new ≡ self.old) }
        ensures there { bound self.old name ≢ None → IsOk result }
    {
        if let Some(old) = self.elements.get_mut(&name) {
            *old = element;
            return Ok(());
        }
        self.elements.insert(name, element)?;
        Ok(())
    }

    // Binds two names, the first one first. After the refusal the bindings are unchanged.
    pub(crate) fn bind_both(
        &mut self,
        first: Name,
        one: Element,
        second: Name,
        other: Element,
    ) -> Result<(), NoMemory>
        ensures ok { OnOk result (self.new ≡ bind (bind self.old first one) second other) }
        ensures err { OnErr result (self.new ≡ self.old) }
    {
        if first == second {
            return self.bind(second, other);
        }
        if self.get(&first).is_some() {
            // takes no memory where the name is bound, so it comes last
            self.bind(second, other)?;
            return self.bind(first, one);
        }
        self.bind_new(first, one, second, other)
    }

    // The same where the first name isn't bound: it is taken off again where the second finds no memory.
    fn bind_new(
        &mut self,
        first: Name,
        one: Element,
        second: Name,
        other: Element,
    ) -> Result<(), NoMemory>
        requires { bound self.old first ≡ None }
        ensures ok { OnOk result (self.new ≡ bind (bind self.old first one) second other) }
        ensures err { OnErr result (self.new ≡ self.old) }
    {
        let count = self.len();
        self.bind(first, one)?;
        let Ok(()) = self.bind(second, other) else {
            self.elements.truncate(count);
            return Err(NoMemory);
        };
        Ok(())
    }
}

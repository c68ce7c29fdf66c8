//! What a traversal met.
ghost use Rattle.std.specs.Prelude.{◌≡◌};

use ids::{Key, KeyList, KeyTable};
use std::alloc::{AllocError, Global};
use std::marker::Model;

/// The keys that a traversal visited, each once, in the order of first visit; and of each whether it is finished: all that
/// lies below it was gone over.
#[derive(Drop)]
pub struct Met {
    order: KeyList,
    marks: KeyTable<bool>,
}

impl Model for Met {
    ghost use Rattle.tree_walk.specs.Visits.{IsMet, MetView, met_code};

    ghost Value = { MetView };

    ghost coded = { met_code };

    ghost view = { λ a. record { keys = a.order; marks = a.marks } };

    ghost invariant = { λ a. IsMet a.order a.marks };
}

impl Met {
    ghost use Rattle.std.specs.Prelude.{◌≡◌, [], IfOk};
    ghost use Rattle.object_graph.specs.Traversal.{distinct_from};
    ghost use Rattle.tree_walk.specs.Visits.{finished, is_done, nothing_met, with_key_met};

    /// Nothing. It takes no memory.
    pub fn new(alloc: Global) -> Met
        ensures value { result ≡ nothing_met }
    {
        Met {
            order: KeyList::new(alloc),
            marks: KeyTable::new(alloc),
        }
    }

    /// Whether a key is finished.
    pub fn is_done(&self, key: &Key) -> bool
        ensures value { result ≡ is_done self.now key.now }
    {
        match self.marks.get(key) {
            Some(done) => *done,
            None => false,
        }
    }

    /// The same with one key more, which isn't finished, if it wasn't met before.
    pub fn visit(self, key: &Key) -> Result<Met, AllocError>
        ensures value { IfOk result (λ met. met ≡ with_key_met key.now self) }
    {
        if self.marks.has(key) {
            return Ok(self);
        }
        let Met { order, marks } = self;
        let mut order = order;
        let mut marks = marks;
        marks.put(*key, false)?;
        order.push(*key)?;
        Ok(Met { order, marks })
    }

    /// The same with this key finished.
    pub fn finish(self, key: &Key) -> Result<Met, AllocError>
        ensures value { IfOk result (λ met. met ≡ finished key.now self) }
    {
        let met = self.visit(key)?;
        let Met { order, marks } = met;
        let mut marks = marks;
        marks.put(*key, true)?;
        Ok(Met { order, marks })
    }

    /// The keys, in the order of first visit.
    pub fn into_keys(self) -> KeyList
        ensures value { result ≡ self.keys }
        ensures once { distinct_from [] result ≡ result }
    {
        let Met { order, marks: _ } = self;
        order
    }
}

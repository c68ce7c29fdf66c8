//! The rule that the table keeps, and what each step tells: the kinds of step, one type each.
ghost use Rattle.std.specs.Prelude.{Some};
ghost use Rattle.turnstile.specs.Rule.{IsLawful};
ghost use Rattle.turnstile.specs.Steps.{newcomer, one_less, one_part, both_of, spent, Drew, Looked, Released, Published, Counted, Glanced, Totalled};

use crate::story::Story;
use crate::view::{About, Parcel, View};
use atomic_table::{Join, Play, Split, TableRule};
use std::marker::PhantomData;

/// The rule of a turnstile over `V`. No value of it is ever made.
pub struct Turns<V> {
    of: PhantomData<V>,
}

impl<V: Story> TableRule<Parcel<V, V::Entry>, View<V, V::Entry>, About<V>> for Turns<V> {
    ghost holds = { IsLawful V.stands };

    ghost first = { λ k. newcomer (Some k.start.value) k.passes k.first k.passes };
}

// One pass of several.
pub(crate) struct Cut;

impl<V, E> Split<View<V, E>> for Cut {
    ghost left = { one_less };

    ghost right = { one_part };
}

// Two passes made one.
pub(crate) struct Merge;

impl<V, E> Join<View<V, E>> for Merge {
    ghost both = { both_of };

    ghost spent = { spent };
}

pub(crate) struct Draw;

impl<V, E> Play<Parcel<V, E>, View<V, E>> for Draw {
    ghost then = { λ st. Drew st.first };
}

pub(crate) struct Look<V> {
    of: PhantomData<V>,
}

impl<V: Story> Play<Parcel<V, V::Entry>, View<V, V::Entry>> for Look<V> {
    ghost then = { λ _. Looked V.stands };
}

pub(crate) struct Release;

impl<V, E> Play<Parcel<V, E>, View<V, E>> for Release {
    ghost then = { λ _. Released };
}

pub(crate) struct Publish;

impl<V, E> Play<Parcel<V, E>, View<V, E>> for Publish {
    ghost then = { λ _. Published };
}

pub(crate) struct Count;

impl<V, E> Play<Parcel<V, E>, View<V, E>> for Count {
    ghost then = { λ _. Counted };
}

pub(crate) struct Glance;

impl<V, E> Play<Parcel<V, E>, View<V, E>> for Glance {
    ghost then = { λ _. Glanced };
}

pub(crate) struct Total;

impl<V, E> Play<Parcel<V, E>, View<V, E>> for Total {
    ghost then = { λ _. Totalled };
}

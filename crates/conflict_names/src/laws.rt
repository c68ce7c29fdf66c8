//! Theorems on the names of conflict copies, each the contract of a function that does nothing.
ghost use Rattle.std.specs.Prelude.{◌≡◌, ℕ, pos, ◌*ℤ◌, unsigned_abs};
ghost use Rattle.jiff_core.specs.declared.civil.datetime.DateTime.{DateTime};
ghost use Rattle.jiff_core.specs.DateTime.{civil_nanos};
ghost use Rattle.tree_model.specs.ThreeWayMerge.{IsNaming};
ghost use Rattle.conflict_names.specs.CivilTime.{stamp, stamp_text};
ghost use Rattle.conflict_names.specs.Naming.{naming};

/// Other numbers give other names, and a conflict name of a good name is a good name where it isn't too long.
pub fn the_names_are_a_naming()
    ensures { IsNaming naming }
{}

/// The time in a name is that of a clock in UTC: year, month and day of the calendar, then the time of day.
pub fn a_name_shows_the_civil_time()
    ensures { (time : DateTime) → (seconds : ℕ) → civil_nanos time ≡ pos seconds *ℤ pos 1_000_000_000
        → stamp seconds ≡ stamp_text (unsigned_abs time.date.year) time.date.month time.date.day time.time.hour time.time.minute time.time.second }
{}

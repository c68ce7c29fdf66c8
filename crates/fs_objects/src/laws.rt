//! What holds of written directories, for all lists of entries: theorems on the definitions, with no code.
ghost use Rattle.std.specs.Prelude.{◌≡◌, List};
ghost use Rattle.std.specs.Cmp.Lexicographic.{slice_cmp};
ghost use Rattle.std.specs.List.{IsDistinct};
ghost use Rattle.std.specs.List.Sorted.{IsPermutation, IsStrictlySortedBy};
ghost use Rattle.std.specs.Ordering.{nat_cmp};
ghost use Rattle.std.specs.Str.{bytes_eq};
ghost use Rattle.fs_objects.specs.Directory.{names_of};
ghost use Rattle.fs_objects.specs.Spelling.{in_written_order, text_of};
ghost use Rattle.fs_objects.specs.declared.dirent.Dirent.{Dirent};
ghost use Rattle.fs_objects.specs.declared.fs_object.FsObject.{FsObject};
ghost use Rattle.fs_objects.specs.declared.mode.TheConstants.{TYPE_MASK, FILE_TYPE, DIRECTORY_TYPE};

/// The types of files and directories in modes are those of POSIX.
pub fn types_in_modes_are_those_of_posix()
    ensures { (TYPE_MASK ≡ 0o170000) × (FILE_TYPE ≡ 0o100000) × (DIRECTORY_TYPE ≡ 0o040000) }
{}

/// The names of written entries descend by their bytes, and none stands twice.
pub fn written_entries_descend_by_name()
    ensures { (entries : List Dirent)
        → IsStrictlySortedBy (λ name later. slice_cmp nat_cmp later name) (names_of (in_written_order entries)) }
{}

/// A directory has one text, whatever the order of its entries.
pub fn a_directory_has_one_text()
    ensures { (entries others : List Dirent) → IsDistinct bytes_eq (names_of entries) → IsPermutation entries others
        → text_of (FsObject.Dir entries) ≡ text_of (FsObject.Dir others) }
{}

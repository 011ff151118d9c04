//! Laws about records. Each law is the contract of a function with an empty body.

ghost use Rattle.std.specs.Prelude.{◌≡◌, ◌≢◌, ◌<◌, ℕ, List, ◌++◌, length, None, Option};
ghost use Rattle.mufom_numbers.specs.Spelling.{AreBytes};
ghost use Rattle.mufom_records.specs.declared.record.Mode.{Mode};
ghost use Rattle.mufom_records.specs.declared.record.Record.{Record};
ghost use Rattle.mufom_records.specs.Fields.{first_of};
ghost use Rattle.mufom_records.specs.Layouts.{IsWholeRecord};
ghost use Rattle.mufom_records.specs.Reading.{record_at};

use mufom_numbers::Taken;

/// A result other than `More` stays the same if the input gets longer. So it makes no difference how bytes
/// are cut into chunks.
pub fn longer_inputs_answer_the_same()
    ensures { (mode : Mode) (input more : List ℕ) → AreBytes input → record_at mode input ≢ Taken.More
        → record_at mode (input ++ more) ≡ record_at mode input }
{}

/// Two complete records at the same offset are the same record, with the same bytes.
pub fn whole_records_at_one_place_are_one()
    ensures { (mode : Mode) (r s : Record) (text rest other more : List ℕ) → IsWholeRecord mode r text (first_of rest None)
        → IsWholeRecord mode s other (first_of more None)
        → text ++ rest ≡ other ++ more → (r ≡ s) × (text ≡ other) }
{}

/// The bytes of a record determine it, whatever follows them. Its strings, literal bytes and expressions
/// are given by their positions, counted from its first byte.
pub fn bytes_determine_the_record()
    ensures { (mode : Mode) (r s : Record) (text : List ℕ) (next other : Option ℕ) → IsWholeRecord mode r text next
        → IsWholeRecord mode s text other → r ≡ s }
{}

/// An input that needs more bytes has fewer than 131,077 bytes: the longest record that may still be
/// incomplete is an MB with two strings of 65,535 bytes.
pub fn incomplete_inputs_are_short()
    ensures { (mode : Mode) (input : List ℕ) → AreBytes input → record_at mode input ≡ Taken.More → length input < 131077 }
{}

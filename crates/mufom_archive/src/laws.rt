//! Laws about archives. Each law is the contract of a function with an empty body.

ghost use Rattle.mufom_archive.specs.Laws.{ArchivesAreRead, HaveListing, HaveOneListing, ListingsAreInside, OnlyArchivesAreRead};

/// Bytes have only one listing: they determine the members and the first error.
pub fn archives_have_one_listing()
    ensures { HaveOneListing }
{}

/// All bytes have a listing.
pub fn archives_have_a_listing()
    ensures { HaveListing }
{}

/// The members of a listing and its error are inside the archive.
pub fn listings_are_inside()
    ensures { ListingsAreInside }
{}

/// An archive that is written out, entry by entry, has the members that its entries are. Only a long name can
/// be wrong in it.
pub fn written_archives_are_read()
    ensures { ArchivesAreRead }
{}

/// Bytes that begin as an archive and whose listing has no error are an archive that is written out, and the
/// members are those that its entries are.
pub fn only_archives_are_read()
    ensures { OnlyArchivesAreRead }
{}

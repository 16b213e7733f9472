// The theorem on the lists of minimal vectors, held by a contract.
ghost use Rattle.structure.specs.Listing.{Listing};

/// States the theorem that the lists of records are the minimal vectors met so far, and all of them at the end.
pub fn listing_stands() -> bool
    ensures { Listing }
{
    true
}

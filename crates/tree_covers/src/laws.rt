// The laws of covers as bytes.
ghost use Rattle.tree_covers.specs.CoverLaws.{OwnTextsAreCovers};

/// What is written of the tree of a module to a depth below 2^64, which shows nothing that counts as an error, is the
/// text of a good cover, so a check accepts it unless memory runs out.
pub fn own_texts_are_covers()
    ensures { OwnTextsAreCovers }
{}

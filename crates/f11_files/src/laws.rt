//! Laws of the files of a volume, each the contract of a function that does nothing.
ghost use Rattle.f11_files.specs.Overall as overall;
ghost use Rattle.f11_files.specs.Rows as rows;

/// After these calls each file that was there has the blocks that it had.
pub fn rows_kept()
    ensures stored { rows.StoredKeepsRows }
    ensures altered { rows.AlteredKeepsRows }
    ensures replaced { rows.ReplacedKeepsRows }
    ensures created { rows.CreatedKeepsRows }
    ensures extended { rows.ExtendedKeepsRows }
    ensures laid { rows.LaidOutKeepsRows }
    ensures grown { rows.GrownKeepsRows }
{}

/// After these, each but the one that is cut or deleted.
pub fn rows_lost()
    ensures cut { rows.CutKeepsRows }
    ensures deleted { rows.DeletedKeepsRows }
{}

/// A call that readies headers first does so much, from its beginning to its end.
pub fn overall()
    ensures creates { overall.CreatesIs }
    ensures extends { overall.ExtendsIs }
{}

//! The name in a file's own header.
ghost use Rattle.std.specs.Prelude.{◌≡◌, IsTrue, length};
ghost use Rattle.f11_header.specs.Fields.{ident_area};
ghost use Rattle.f11_header.specs.Header.{holds_header};
ghost use Rattle.f11_volume.specs.map.HeaderBlock.{segment_number};
ghost use Rattle.f11_catalog.specs.AllDirectories.{name_in};

use f11_bytes::Block;
use f11_header::Header;
use f11_rad50::Name;
use f11_store::name_words;

/// The name that the first header of a file has in its ident area, where it is one (Files-11 On-Disk Structure Level 1, "Ident Area").
pub(crate) fn own_name(header: &Block) -> Option<Name>
    requires header { IsTrue (holds_header header.now) }
    requires first { segment_number header.now ≡ 0 }
    ensures { result ≡ name_in (ident_area header.now) }
{
    name_of(Header::new(header).ident())
}

/// The name whose five words an ident area begins with.
fn name_of(ident: &[u8]) -> Option<Name>
    requires { length ident.now ≡ 46 }
    ensures { result ≡ name_in ident.now }
{
    Name::from_words(name_words(ident))
}

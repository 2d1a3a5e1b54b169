//! In what order an image has the sectors of a floppy, and where in it the bytes of the blocks are: interleave and skew as in RT-11's
//! handlers DX and DY (RT-11 Volume and File Formats Manual), of the RX50 as they are commonly told.
ghost use Rattle.std.specs.Prelude.{◌≡◌, ◌+◌, ◌*◌, ◌<◌, ◌≤◌};
ghost use Rattle.f11_floppies.specs.Order.{
  block_count,
  image_size,
  interleaved,
  order_of_length,
  place,
  sector_bytes,
  sectors_of_block,
  sectors_of_track,
};

/// Sector order: an image has the sectors of one of these floppies one after another, each track from its sector 1 on, from track 0 on.
#[derive(Clone, Copy, Debug, PartialEq, Eq)]
pub enum Order {
    /// 77 tracks of 26 sectors of 128 bytes.
    Rx01,
    /// 77 tracks of 26 sectors of 256 bytes.
    Rx02,
    /// 80 tracks of 10 sectors of 512 bytes. No length tells it, since its image has as many bytes in logical order.
    Rx50,
}

impl Order {
    /// The order that an image of so many bytes has by its length: of 256,256 bytes it is an RX01's, and of 512,512 an RX02's. An image of
    /// any other length is in no such order as far as its length tells: its blocks are taken as they are.
    pub fn of_length(bytes: u64) -> Option<Order>
        ensures { result ≡ order_of_length bytes }
    {
        match bytes {
            256_256 => Some(Order::Rx01),
            512_512 => Some(Order::Rx02),
            _ => None,
        }
    }

    /// How many blocks of 512 bytes there are: 494, 988 or 800. Track 0 of an RX01 and an RX02 has none.
    pub fn blocks(self) -> u32
        ensures { result ≡ block_count self }
    {
        match self {
            Order::Rx01 => 494,
            Order::Rx02 => 988,
            Order::Rx50 => 800,
        }
    }

    /// How many bytes a whole image has: 256,256, 512,512 or 409,600.
    pub fn image_bytes(self) -> usize
        ensures { result ≡ image_size self }
    {
        match self {
            Order::Rx01 => 256_256,
            Order::Rx02 => 512_512,
            Order::Rx50 => 409_600,
        }
    }

    /// How many bytes a sector has: 128, 256 or 512.
    pub(crate) fn sector_bytes(self) -> usize
        ensures { result ≡ sector_bytes self }
    {
        match self {
            Order::Rx01 => 128,
            Order::Rx02 => 256,
            Order::Rx50 => 512,
        }
    }

    /// How many sectors a block has: 4, 2 or 1.
    pub(crate) fn sectors_of_block(self) -> usize
        ensures { result ≡ sectors_of_block self }
    {
        match self {
            Order::Rx01 => 4,
            Order::Rx02 => 2,
            Order::Rx50 => 1,
        }
    }
}

impl Order {
    ghost use Rattle.f11_floppies.specs.Order.{sector_of, sector_count, start_of, track_of, tracks};

    /// How many sectors a track has: 26 or 10.
    fn sectors_of_track(self) -> usize
        ensures { result ≡ sectors_of_track self }
    {
        match self {
            Order::Rx01 | Order::Rx02 => 26,
            Order::Rx50 => 10,
        }
    }

    /// The track, from 0, of a logical sector.
    fn track_of(self, logical: usize) -> usize
        requires { logical < sector_count self }
        ensures track { result ≡ track_of self logical }
        ensures on_disk { result < tracks self }
    {
        match self {
            Order::Rx01 | Order::Rx02 => logical / 26 + 1,
            Order::Rx50 => (logical / 10 + 1) % 80,
        }
    }

    /// The sector, from 1, of a logical sector on its track.
    fn sector_of(self, logical: usize) -> usize
        requires { logical < sector_count self }
        ensures sector { result ≡ sector_of self logical }
        ensures on_track { (0 < result) × (result ≤ sectors_of_track self) }
    {
        match self {
            Order::Rx01 | Order::Rx02 => interleaved(26, 6, logical),
            Order::Rx50 => interleaved(10, 2, logical),
        }
    }

    /// The first byte of a logical sector, in a whole image.
    pub(crate) fn start_of(self, logical: usize) -> usize
        requires { logical < sector_count self }
        ensures start { result ≡ start_of self logical }
        ensures within { result + sector_bytes self ≤ image_size self }
    {
        let sectors = self.sectors_of_track() * self.track_of(logical) + self.sector_of(logical)
            - 1;
        sectors * self.sector_bytes()
    }
}

/// The sector, from 1, of a logical sector: two apart, the second half of a track into the gaps, each track so many behind the one before.
fn interleaved(sectors: usize, skew: usize, logical: usize) -> usize
    requires sectors { (0 < sectors) × (sectors ≤ 26) }
    requires skew { skew ≤ 6 }
    requires logical { logical < 2000 }
    ensures sector { result ≡ interleaved sectors skew logical }
    ensures on_track { (0 < result) × (result ≤ sectors) }
{
    let on_track = logical % sectors;
    let gap = if on_track >= sectors / 2 { 1 } else { 0 };
    (2 * on_track + gap + skew * (logical / sectors)) % sectors + 1
}

/// Which byte of an image in sector order, from 0, is byte `byte`, from 0 to 511, of block `lbn`.
pub fn place(order: Order, lbn: u32, byte: usize) -> usize
    requires block { lbn < block_count order }
    requires byte { byte < 512 }
    ensures at { result ≡ place order lbn byte }
    ensures within { result < image_size order }
{
    let size = order.sector_bytes();
    order.start_of(order.sectors_of_block() * lbn as usize + byte / size) + byte % size
}

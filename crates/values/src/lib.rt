// The rules on the values of a command's words, by command: illegal values and clashes.
#![tactic(auto)]

ghost use Rattle.std.specs.Prelude.{◌≡◌};
ghost use Rattle.rules.specs.Values.{page_limit};
ghost use Rattle.values.specs.Broken.{load_broken, primitive_broken, clip_broken, raster_broken};

use rules::Reason;
use table::Group;

// The rules on values that a command breaks: an illegal value in each of its words, and its first clash.
#[derive(Clone, Copy, PartialEq, Eq)]
pub struct Faults {
    pub first: bool,
    pub second: bool,
    pub third: bool,
    pub fourth: bool,
    pub clash: Option<Reason>,
}

pub fn load_faults(g: Group) -> Faults
    ensures { result ≡ load_broken g }
{
    let code = (g.header >> 20) % 8;
    let floats = (g.header >> 23) % 2;
    let planes = (g.header >> 10) % 512 + g.header % 512;
    let range = ((code == 5) & (8 < planes)).then_some(Reason::PlaneRange);
    let bare = (code != 1) & (code != 2); // 0 or 5: other codes are illegal, in the first word
    Faults {
        first: (2 < code) & (code != 5),
        second: (code != 2) & (g.second != 0),
        third: bare & (g.third != 0),
        fourth: bare & (g.fourth != 0),
        clash: ((code != 5) & (floats == 1))
            .then_some(Reason::FloatBit)
            .or(range),
    }
}

pub fn primitive_faults(g: Group) -> Faults
    ensures { result ≡ primitive_broken g }
{
    Faults {
        first: g.header != 0,
        second: g.second != 0,
        third: g.third != 0,
        fourth: g.fourth != 0,
        clash: None,
    }
}

fn page_limit(bank: u32) -> u32
    ensures { result ≡ page_limit bank }
{
    match bank {
        0 => 15,
        1 => 11,
        _ => 6,
    }
}

pub fn clip_faults(g: Group) -> Faults
    ensures { result ≡ clip_broken g }
{
    let bank = (g.second >> 28) % 4;
    let most = (g.third >> 28) % 16;
    let least = (g.third >> 12) % 16;
    let minimum = (!((least == 0) | (least < most + 1))).then_some(Reason::PageMinimum);
    Faults {
        first: false,
        second: bank == 3,
        third: false,
        fourth: false,
        clash: (page_limit(bank) < most)
            .then_some(Reason::PageMaximum)
            .or(minimum),
    }
}

pub fn raster_faults(g: Group) -> Faults
    ensures { result ≡ raster_broken g }
{
    let bits = ((g.header >> 22) % 2 == 0) & ((g.header >> 14) % 2 == 1);
    Faults {
        first: false,
        second: false,
        third: false,
        fourth: false,
        clash: bits.then_some(Reason::RasterBits),
    }
}

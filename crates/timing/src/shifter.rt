// Where a level shifter is needed.
ghost use Rattle.std.specs.Prelude.{◌≡◌, slice_index};
ghost use Rattle.netlist.specs.View.{view};
ghost use Rattle.timing.specs.Shifters.{climbs as climbs_from};

use netlist::design::Design;
use netlist::parts::Supplies;

// The voltage of a supply, 0 where there is none.
fn voltage(supplies: &Supplies, supply: u32) -> u32
    ensures { result ≡ slice_index supplies.now.values supply }
{
    supplies.values.get(supply as usize).copied().unwrap_or(0)
}

// Whether a net from one supply to another needs a shifter: it does when the driver's voltage is below the receiver's.
pub fn climbs(design: &Design, from: u32, to: u32) -> bool
    ensures { result ≡ climbs_from (view design.now) from to }
{
    let supplies = design.supplies();
    voltage(&supplies, from) < voltage(&supplies, to)
}

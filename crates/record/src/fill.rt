// Fills a draft with the parts of a lawful design, which it never refuses.
ghost use Rattle.std.specs.Prelude.{◌≡◌, ◌≤◌, true, [], length};
ghost use Rattle.std.specs.List.{list_all};
ghost use Rattle.netlist.specs.Netlist.{netlist, modules, supplies_lawful, menu_lawful, net_lawful, no_supplies, lawful};
ghost use Rattle.netlist.specs.View.{drawn};
ghost use Rattle.record.specs.Sheets.{design};

use crate::sheet::Sheet;
use netlist::design::draft::Draft;
use netlist::parts::{Menu, Net, Supplies};

// Into a draft that has none yet, and no modules.
fn fill_supplies(draft: &mut Draft, supplies: Supplies)
    requires lawful { supplies_lawful supplies ≡ true }
    requires none { (drawn draft.old).supplies ≡ no_supplies }
    requires early { (drawn draft.old).menus ≡ [] }
    ensures { drawn draft.new ≡ netlist (drawn draft.old).terms supplies (drawn draft.old).menus (drawn draft.old).nets }
{
    for (number, voltage) in supplies.standing() {
        let _ = draft.supply(number, voltage);
    }
}

fn fill_menus(draft: &mut Draft, menus: &[Menu])
    requires lawful { list_all (menu_lawful (drawn draft.old).supplies.map) menus.now ≡ true }
    requires few { length menus.now ≤ 64 }
    requires none { (drawn draft.old).menus ≡ [] }
    ensures { drawn draft.new ≡ netlist (drawn draft.old).terms (drawn draft.old).supplies menus.now (drawn draft.old).nets }
{
    for menu in menus {
        let _ = draft.module(menu.map, &menu.values);
    }
}

fn fill_nets(draft: &mut Draft, nets: &[Net])
    requires lawful { list_all (net_lawful (modules (drawn draft.old))) nets.now ≡ true }
    requires few { length nets.now ≤ 256 }
    requires none { (drawn draft.old).nets ≡ [] }
    ensures { drawn draft.new ≡ netlist (drawn draft.old).terms (drawn draft.old).supplies (drawn draft.old).menus nets.now }
{
    for net in nets {
        let _ = draft.net(net.driver, net.receiver, net.wire);
    }
}

pub(crate) fn fill(draft: &mut Draft, sheet: Sheet)
    requires { lawful (design sheet) ≡ true }
    ensures { drawn draft.new ≡ design sheet.entry }
{
    let terms = sheet.terms;
    draft.clear();
    let _ = draft.terms(terms.cycle, terms.shifter.delay, terms.shifter.power);
    fill_supplies(draft, sheet.supplies);
    fill_menus(draft, sheet.menus);
    fill_nets(draft, sheet.nets);
}

// Reads a whole record into a draft.
ghost use Rattle.std.specs.Prelude.{◌≡◌, ℕ, List, Ok, OnOk};
ghost use Rattle.netlist.specs.View.{drawn};
ghost use Rattle.record.specs.Fields.{Bytes};
ghost use Rattle.record.specs.Record.{reads_as, record_of, taken, replaced};
ghost use Rattle.record.specs.Sheets.{designed};

use crate::cursor::Cursor;
use crate::fill::fill;
use crate::sheet::Sheet;
use faults::RecordFault;
use netlist::design::draft::Draft;
use netlist::parts::{Menu, Net};

// Reads all blocks, the modules and nets into places that the caller lends.
fn read_sheet<'a>(
    bytes: &[u8],
    menus: &'a mut [Menu; 64],
    nets: &'a mut [Net; 256],
) -> Result<Sheet<'a>, RecordFault>
    ensures { designed result ≡ reads_as bytes.now }
{
    let mut cursor = Cursor { bytes, at: 0 };
    let head = cursor.head().map_err(|fault| (0, fault))?;
    let supplies = cursor.supplies().map_err(|fault| (1, fault))?;
    let menus = &mut menus[..head.modules as usize];
    let nets = &mut nets[..head.nets as usize];
    let first_net = 2 + menus.len();
    let end = first_net + nets.len();
    cursor.menus(supplies.map, 2, menus)?;
    cursor.nets(head.modules, first_net, nets)?;
    if cursor.at < bytes.len() {
        return Err(RecordFault::BytesFollow {
            block: end,
            at: cursor.at,
        });
    }
    Ok(Sheet {
        terms: head.terms,
        supplies,
        menus,
        nets,
    })
}

// Reads a record into a draft, which it replaces whole; a refused record leaves it as it was.
pub fn read(bytes: &[u8], draft: &mut Draft) -> Result<(), RecordFault>
    ensures answer { result ≡ taken (reads_as bytes.now) }
    ensures after { drawn draft.new ≡ replaced (reads_as bytes.now) (drawn draft.old) }
    ensures written_back { OnOk result (record_of (drawn draft.new) ≡ bytes.now) }
    ensures one_design { OnOk result ((other : List ℕ) → Bytes other → reads_as other ≡ Ok (drawn draft.new) → other ≡ bytes.now) }
{
    let mut menus = [Menu::NONE; 64];
    let mut nets = [Net::NONE; 256];
    let sheet = read_sheet(bytes, &mut menus, &mut nets)?;
    fill(draft, sheet);
    Ok(())
}

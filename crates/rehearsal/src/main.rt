// Plans a batch at the gNB and prints what would be sent: two cells, three occasions, five assignments by format 1_1.
#![tactic(auto)]

use anyhow::anyhow;
use gnb::{Call, Grant, GrantEntry, Mark, plan};
use harq::{Config, Format};

// One transport block by format 1_1.
fn grant(cell: u32) -> Grant {
    Grant {
        cell,
        format: u32::from(Format::OneOne),
        blocks: 1,
    }
}

fn show_entry(rt: &HostRuntime, e: &GrantEntry) -> anyhow::Result<()> {
    let GrantEntry {
        number,
        occasion,
        cell,
        format,
        blocks,
        field,
        ..
    } = *e;
    println!(rt;
        "number {number}: occasion {occasion} cell {cell} format {format} blocks {blocks} field {field}"
    )?;
    Ok(())
}

fn run(rt: &HostRuntime) -> anyhow::Result<()> {
    let config = Config {
        cells: 2,
        occasions: 3,
        ..Config::default()
    };
    let both = [grant(0), grant(1)];
    let second = [grant(1)];
    let calls = [
        Call {
            occasion: 0,
            grants: &both,
        },
        // Declined, since its occasion has been numbered.
        Call {
            occasion: 0,
            grants: &second,
        },
        Call {
            occasion: 1,
            grants: &second,
        },
        Call {
            occasion: 2,
            grants: &both,
        },
    ];
    let mut table = [GrantEntry::default(); 8];
    let mut marks = [Mark::default(); 0];
    let expected = plan(config, &[], &calls, &mut table, &mut marks).map_err(|_| anyhow!(
        "the batch is declined"
    ))?;
    // Numbers are counted from 1: 0 is an entry that was not written.
    for entry in table.iter().filter(|entry| entry.number > 0) {
        show_entry(rt, entry)?;
    }
    println!(rt; "expected length {expected}")?;
    Ok(())
}

fn main(rt: HostRuntime) -> anyhow::Result<()> {
    run(&rt)
}

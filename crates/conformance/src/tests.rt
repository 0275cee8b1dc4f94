// What no vector shows: a room or slots that are too small, a sink over a sink, bytes as they go on air, a difference.
use crate::verdicts::judge_line;
use harq::{Config, Format, Refusal};
use sink::{BitSink, PackedBits, Quota, TextBits};
use std::process::Abort;
use std::test::Fail;
use ue::{Arrival, Received, Slot};

// Two cells, three occasions.
const CONFIG: Config = Config {
    cells: 2,
    occasions: 3,
    width: 0,
    mode: 0,
    first: [0; 16],
};

// What the lent slots hold before.
const LENT: Slot = Slot::Two(true, true);

// An assignment by format 1_1 whose block was decoded.
fn decoded(cell: u32, occasion: u32, field: u32) -> Arrival {
    Arrival {
        cell,
        occasion,
        format: u32::from(Format::OneOne),
        field,
        blocks: 1,
        outcomes: [1, 0],
    }
}

// The first and the last of five assignments: the report is 10001.
fn first_and_fifth() -> [Arrival; 2] {
    [decoded(0, 0, 1), decoded(1, 2, 0)]
}

// These assignments in the two cells, and no SPS reception.
fn received(arrivals: &[Arrival]) -> Received<'_> {
    Received {
        config: &CONFIG,
        arrivals,
        sps: &[],
    }
}

// Five bits are refused by a sink that has room for four; slots and sink stay as they were.
fn check_no_room<S: BitSink>(rt: &impl Abort, sink: &mut S) {
    let mut slots = [LENT; 6];
    let answer = received(&first_and_fifth()).report(&mut slots, sink);
    assert_eq!(rt; answer, Err(Refusal::Room));
    assert_eq!(rt; S::room_left(sink), 4);
    assert_eq!(rt; slots, [LENT; 6]);
}

#[test]
fn text_without_room(rt: HostRuntime) {
    let mut bytes = *b"abcd";
    let mut text = TextBits::new(&mut bytes);
    check_no_room(&rt, &mut text);
    assert_eq!(rt; bytes, *b"abcd");
}

#[test]
fn packed_without_room(rt: HostRuntime) -> Result<(), Fail> {
    let mut bytes = [0x5a];
    let mut packed = PackedBits::new(&mut bytes);
    for _ in 0..4 {
        packed.put(true)?;
    }
    check_no_room(&rt, &mut packed);
    assert_eq!(rt; bytes, [0xfa]);
    Ok(())
}

#[test]
fn quota_without_room(rt: HostRuntime) {
    let mut bytes = *b"abcdefgh";
    let mut text = TextBits::new(&mut bytes);
    let mut quota = Quota::new(&mut text, 4);
    check_no_room(&rt, &mut quota);
    assert_eq!(rt; bytes, *b"abcdefgh");
}

// The first and the third of three assignments want three slots; that there are two is told before that there is no room.
#[test]
fn too_few_slots(rt: HostRuntime) {
    let mut slots = [LENT; 2];
    let mut bytes = *b"ab";
    let mut text = TextBits::new(&mut bytes);
    let arrivals = [decoded(0, 0, 1), decoded(1, 1, 10)];
    let answer = received(&arrivals).report(&mut slots, &mut text);
    assert_eq!(rt; answer, Err(Refusal::Table));
    assert_eq!(rt; slots, [LENT; 2]);
    assert_eq!(rt; bytes, *b"ab");
}

#[test]
fn quota_over_text(rt: HostRuntime) {
    let mut slots = [LENT; 6];
    let mut bytes = *b"abcdefgh";
    let mut text = TextBits::new(&mut bytes);
    let mut quota = Quota::new(&mut text, 5);
    let answer = received(&first_and_fifth()).report(&mut slots, &mut quota);
    assert_eq!(rt; answer, Ok(5));
    assert_eq!(rt; quota.room_left(), 0);
    assert_eq!(rt; bytes, *b"10001fgh");
}

// On air 0 is ACK, and the bits behind the report are kept.
#[test]
fn on_air(rt: HostRuntime) {
    let mut slots = [LENT; 6];
    let mut bytes = [0xa5, 0xa5];
    let answer = received(&first_and_fifth()).transmit(&mut slots, &mut bytes);
    assert_eq!(rt; answer, Ok(5));
    assert_eq!(rt; bytes, [0x75, 0xa5]);
    assert_eq!(rt; slots[5], LENT);
}

#[test]
fn difference_is_told(rt: HostRuntime) -> Result<(), Fail> {
    let verdict = judge_line(rt.alloc(), "trace 010602 => fault 11 2 1")?;
    let told = format!(in rt.alloc(); "{verdict}")?;
    assert_eq!(rt;
        told.as_str(),
        "expected \"fault 11 2 1\", came \"fault 11 2 0\""
    );
    Ok(())
}

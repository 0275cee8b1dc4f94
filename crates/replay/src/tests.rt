// An exchange is played: where there is memory, the call succeeds.
use crate::playing::play;
use crate::running::Way;
use crate::scripts::{Request, Script};
use agreement::Fate;
use gnb::Grant;
use harq::Config;
use std::alloc::{AllocError, Global};
use std::test::Fail;

// One cell, one occasion, one assignment, which arrives with its block decoded.
fn script(heap: Global) -> Result<Script, AllocError> {
    let grant = Grant {
        cell: 0,
        format: 1,
        blocks: 1,
    };
    let request = Request {
        occasion: 0,
        grants: vec![in heap; grant; 1]?,
    };
    let mut requests = Vec::new(heap);
    requests.push(request)?;
    let decoded = Fate {
        arrived: true,
        outcomes: [1; 2],
    };
    Ok(Script {
        config: Config {
            cells: 1,
            occasions: 1,
            width: 0,
            mode: 0,
            first: [0; 16],
        },
        sps: Vec::new(heap),
        table: 4,
        requests,
        fates: vec![in heap; decoded; 1]?,
    })
}

#[test]
fn plays_either_way(rt: HostRuntime) -> Result<(), Fail> {
    let heap = rt.alloc();
    let script = script(heap)?;
    for way in [Way::Plain, Way::Inverted] {
        let played = play(heap, &script, way)?;
        assert_eq!(rt; played.digits.as_str(), "1");
        assert_eq!(rt; played.sent.len(), 1);
    }
    Ok(())
}

mod driven;

use super::*;
use rewind_script::read_script;
use std::test::*;

#[test]
fn a_new_worker(rt: HostRuntime) -> Result<(), Fail> {
    let text =
        b"region force 64 16\nlog bucket\nmap tree\nmap cells\nlane\nbegin 0\nput 0 1 10\nget 0 1\ncommit\ncheckpoint\nlane\n";
    let script = read_script(rt.alloc(), text).ok().ok_or("a script")?;
    let rows = [(0, 2), (1, 0)];
    for (lane, items) in rows {
        if script.lanes.len() <= lane as usize {
            panic!(rt; "a lane");
        }
        let worker = Worker::new(rt.alloc(), &script, lane).ok().ok_or("memory")?;
        assert_eq!(rt; worker.items.len(), items);
        assert_eq!(rt; worker.kinds.len(), 2);
        assert_eq!(rt; (worker.at, worker.number), (0, 0));
        assert_eq!(rt; worker.fates().len(), 0);
    }
    Ok(())
}

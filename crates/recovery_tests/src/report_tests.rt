//! The image of a run that was stopped behind its 23rd event, which had stored a word of its only update.
ghost use Rattle.std.specs.Prelude.{◌≡◌};

use crate::images::{Image, words_of};
use crate::runs::{Case, check, check_words, loaded};
use lane_traits::Device;
use persist_model::ImageRule;
use recovery_passes::{RecoverFault, recover};
use region_layout::{Layout, Policy};
use std::test::Fail;

const RECORD: [u64; 8] = [1, 1, 1, 103, 0, 7, 0, 0];

fn first_format() -> Layout
    ensures { result.structures ≡ 1 }
{
    Layout {
        policy: Policy::Force,
        cells: 1,
        buckets: 4,
        blocks: 16,
        structures: 1,
        format: 1,
        partitions: 1,
    }
}

#[test]
fn a_stopped_run_is_recovered(rt: HostRuntime) -> Result<(), Fail> {
    check(
        &rt,
        rt.alloc(),
        &Case {
            image: Image {
                layout: first_format(),
                chain: &[32],
                records: &[(40, RECORD)],
                words: &[(103, 7)],
            },
            after: &[(0, 5933297088048660481), (6, 0), (13, 0), (96, 1), (103, 0)],
            winners: &[],
            losers: &[1],
            events: 95,
        },
    )
}

// A second record has the number of the first.
#[test]
fn an_image_that_is_not_sound_is_left_as_it_is(rt: HostRuntime) -> Result<(), Fail> {
    let alloc = rt.alloc();
    let image = Image {
        layout: first_format(),
        chain: &[32, 48],
        records: &[(40, RECORD), (56, [1, 2, 1, 104, 0, 8, 0, 0])],
        words: &[(103, 7)],
    };
    let words = words_of(alloc, &image)?;
    let mut region = loaded(&rt, alloc, &words);
    match recover(alloc, &mut region) {
        Err(RecoverFault::Unsound(found)) => {
            assert_eq!(rt; (found.rule, found.address), (ImageRule::Order, 56));
        }
        _ => return Err("not refused".into()),
    }
    assert_eq!(rt; region.events(), 0);
    check_words(&rt, &region, &[(8, 32), (9, 48), (40, 1), (103, 7)]);
    Ok(())
}

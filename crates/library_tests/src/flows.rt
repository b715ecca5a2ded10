//! Joins and meets of worked flows, peaks at their end, and which refusals blockade.
use flow_merge::{blockades, join, le, meet};
use rsvp_base::{Flow, Peak, Rate};
use std::test::Fail;

fn flow(r: u64, b: u64, p: Option<u64>, low: u32, most: u32) -> Option<Flow> {
    let peak = match p {
        Some(rate) => Peak::Finite(Rate::of(rate)?),
        None => Peak::Infinite,
    };
    Flow::new(Rate::of(r)?, Rate::of(b)?, peak, low, most)
}

#[test]
fn joins_and_meets_go_field_by_field(rt: HostRuntime) -> Result<(), Fail> {
    let video = flow(300, 600, None, 64, 1500).ok_or("video")?;
    let audio = flow(500, 400, None, 128, 1000).ok_or("audio")?;
    let shaped = flow(500, 400, Some(700), 128, 1000).ok_or("shaped")?;
    for (a, b, joined, met, is_at_most) in [
        (
            video,
            audio,
            flow(500, 600, None, 64, 1500),
            flow(300, 400, None, 128, 1000),
            false,
        ),
        (audio, shaped, Some(audio), Some(shaped), false),
        (shaped, audio, Some(audio), Some(shaped), true),
        (video, video, Some(video), Some(video), true),
    ] {
        assert!(rt;
            (Some(join(&a, &b)), Some(meet(&a, &b)), le(&a, &b)) == (joined, met, is_at_most)
        );
    }
    Ok(())
}

#[test]
fn a_refusal_for_rate_or_size_blockades_itself_and_no_other_does(
    rt: HostRuntime,
) -> Result<(), Fail> {
    for (sub, is_blockaded) in [
        (0, false),
        (1, false),
        (2, true),
        (3, true),
        (4, false),
        (65535, false),
    ] {
        let small = flow(1, 1, None, 1, 1).ok_or("small")?;
        let large = flow(1000, 2000, Some(500), 64, 1500).ok_or("large")?;
        assert!(rt; blockades(&small, sub, &small) == is_blockaded, "at {sub}");
        assert!(rt; blockades(&large, sub, &large) == is_blockaded, "at {sub}");
    }
    Ok(())
}

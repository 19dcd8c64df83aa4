// What shows a filter, called as another crate calls it, by the public names of `lines`. The texts are written by hand: from the line of `dump` in docs/SCRIPT.md, from what New leaves, and from the bits of 0.25, 1, 2 and 4.
use angles::Kind;
use filter::{Filter, Kept, Stage, Track};
use lines::answers;
use script::first;
use sigma::Params;

// One state, x 1, P 4, Q 0.25, alpha 1, beta and kappa 0.
#[test]
fn shows_a_filter(rt: HostRuntime) {
    let params = Params {
        alpha: 1.0,
        beta: 0.0,
        kappa: 0.0,
    };
    let made = Filter::new(1, &[1.0f64], &[4.0], &[0.25], params).filter;
    let mut out = [b'.'; 400];
    let at = answers::put_moments(&mut out, 3, made);
    assert_eq!(rt;
        first(&out, at),
        b"... x 3ff0000000000000 P 4010000000000000".as_slice()
    );
    let at = answers::put_kept(&mut out, 0, made);
    assert_eq!(rt; first(&out, at), b" way - at 0 asked 0 m 0 img".as_slice());
    let at = answers::put_filter(&mut out, 0, made);
    let want =
        b"0 0 n 1 x 3ff0000000000000 P 4010000000000000 Q 3fd0000000000000 par 3ff0000000000000 0000000000000000 0000000000000000 kinds p w 0000000000000000 0000000000000000 pts 0000000000000000 0000000000000000 0000000000000000 stale 1 open - dw 0000000000000000 0000000000000000 dpts 0000000000000000 0000000000000000 0000000000000000";
    assert_eq!(rt; first(&out, at), want.as_slice());
    // of P there is room for the blank before its number
    let mut short = [b'.'; 20];
    let at = answers::put_moments(&mut short, 0, made);
    assert_eq!(rt; first(&short, at), b" x 3ff0000000000000 ".as_slice());
}

// The same at f32, where the state is a turn by the half-turn 2 and a correction is open one point at a time: the first of its images, of two numbers, is in.
#[test]
fn shows_a_narrow_filter(rt: HostRuntime) {
    let params = Params {
        alpha: 1.0,
        beta: 0.0,
        kappa: 0.0,
    };
    let made = Filter::new(1, &[1.0f32], &[4.0], &[0.25], params).filter;
    let made = made.set_kind(0, Kind::Turn(2.0)).filter;
    let mut images = [0.0; 136];
    images[0] = 4.0;
    images[1] = 1.0;
    let kept = Kept {
        at: 1,
        asked: true,
        m: 2,
        images,
    };
    let track = Track {
        stage: Stage::CorrectingStepped,
        kept,
        ..made.track
    };
    let filter = Filter { track, ..made };
    let mut out = [b'.'; 400];
    let at = answers::put_moments(&mut out, 0, filter);
    assert_eq!(rt; first(&out, at), b" x 3f800000 P 40800000".as_slice());
    let at = answers::put_kept(&mut out, 0, filter);
    assert_eq!(rt;
        first(&out, at),
        b" way s at 1 asked 1 m 2 img 40800000 3f800000".as_slice()
    );
    let at = answers::put_filter(&mut out, 0, filter);
    let want =
        b"0 0 n 1 x 3f800000 P 40800000 Q 3e800000 par 3f800000 00000000 00000000 kinds t 40000000 w 00000000 00000000 pts 00000000 00000000 00000000 stale 1 open c dw 00000000 00000000 dpts 00000000 00000000 00000000";
    assert_eq!(rt; first(&out, at), want.as_slice());
}

//! Listings that fit, and one that is cut short.
use orders::answer::{Answer, Ending};
use sheet::{Position, write_listing};
use std::test::Fail;

const ANSWERS: [Answer; 2] = [
    Answer::Accepted(0),
    Answer::Ended(Ending {
        client: 3,
        version: 12,
        value: -40,
        rounds: 2,
    }),
];

#[test]
fn whole(rt: HostRuntime) -> Result<(), Fail> {
    let mut out = [0u8; 64];
    let mut at = Position { len: 9 };
    match write_listing(&ANSWERS, &mut out, &mut at) {
        Ok(n) => {
            assert_eq!(rt; n, 27);
            assert!(rt; n == 27);
            let text: &[u8] = b"100 0 0 0 0\n105 3 12 -40 2\n";
            assert!(rt; &out[0..27] == text);
            Ok(())
        }
        Err(_) => Err(Fail::new("the listing did not fit")),
    }
}

#[test]
fn cut_short(rt: HostRuntime) -> Result<(), Fail> {
    let mut out = [0u8; 26];
    let mut at = Position { len: 0 };
    match write_listing(&ANSWERS, &mut out, &mut at) {
        Ok(_) => Err(Fail::new("the listing fitted")),
        Err(fault) => {
            assert_eq!(rt; fault.number(), 36);
            assert_eq!(rt; at.len, 12);
            Ok(())
        }
    }
}

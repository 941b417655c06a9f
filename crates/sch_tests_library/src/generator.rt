//! The text that the generator makes of 0.

use sch_generator::generate;
use std::test::Fail;

const FIRST: &[u8] =
    b"(define (f0 a b) (if (< a b) (remainder (+ a (* 3 b)) 1000) (remainder (+ (* 5 a) b) 1000)))\n";

const LAST: &[u8] = b"\n(display (f999 887 185))(newline)\n";

#[test]
fn the_text_of_zero(rt: HostRuntime) -> Result<(), Fail> {
    let text = generate(rt.alloc(), 0)?;
    let text = text.as_slice();
    assert!(rt; text.len() == 108_283);
    assert!(rt; text.starts_with(FIRST));
    assert!(rt; text.ends_with(LAST));
    Ok(())
}

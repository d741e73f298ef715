//! `coap_log`.
use coap_log::{Limiter, Line};
use std::io::Write;
use std::test::*;

#[test]
fn coap_log(rt: HostRuntime) -> Result<(), Fail> {
    let alloc = rt.alloc();
    let now = 0;
    let mut limiter = Limiter::new(); // 20 lines at once, then 5 a second
    let mut line = Line::new(alloc, 1000)?;
    if limiter.allows(now) {
        line.begin("dropped");
        line.key("client");
        line.write_all(b"a b\n")?; // a value, whatever is in it
        assert_eq!(rt; line.bytes(), b"dropped client=a%20b%0A".as_slice());
    }
    Ok(())
}

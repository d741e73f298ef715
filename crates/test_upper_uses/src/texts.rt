//! `coap_config`, `coap_lines`, `coap_replay`, `coap_explain`.
use crate::fixtures;
use crate::fixtures::CLIENT;
use coap_config::{read_config, read_words};
use coap_core::{Datagram, Routes};
use coap_explain::Explainer;
use coap_lines::{LONGEST, line_buffer, put_line, read_turn};
use coap_replay::{Budget, Input, Output, replay, replay_watched};
use std::test::*;

#[test]
fn coap_config(rt: HostRuntime) -> Result<(), Fail> {
    let alloc = rt.alloc();
    let words = fixtures::words(alloc, "-p 5683 --config proxy.toml")?;
    let settings = read_words(alloc, &words)?; // as `-p 5683 --config proxy.toml`
    assert!(rt; settings.config.is_some());
    let config = read_config(alloc, b"version = 1\n[limits]\nnstart = 2\n")?;
    assert_eq!(rt; config.limits.values().nstart, 2);
    Ok(())
}

#[test]
fn coap_lines(rt: HostRuntime) -> Result<(), Fail> {
    let alloc = rt.alloc();
    let to = CLIENT;
    let mut datagram = Datagram::new(alloc, LONGEST / 2)?;
    let line = b"500 250 192.0.2.7:40001 50010007B174";
    let turn = read_turn(line, 0, &mut datagram).ok_or("not a turn")?;
    assert_eq!(rt; (turn.now, turn.draw), (500, 250));
    assert_eq!(rt; datagram.bytes(), b"\x50\x01\x00\x07\xB1t".as_slice());
    let mut out = line_buffer(alloc, 1500)?;
    put_line(&mut out, 500, to, b"\x50\x01\x00\x07\xB1t");
    assert_eq!(rt;
        out.as_slice(),
        b"500 192.0.2.7:40001 50010007B174\n".as_slice()
    );
    Ok(())
}

#[test]
fn coap_replay(rt: HostRuntime) -> Result<(), Fail> {
    let alloc = rt.alloc();
    let mut core = fixtures::core(alloc)?;
    let mut input = Input::new(b"0 0 192.0.2.7:40001 50010007B174\n0 0 tick\n".as_slice());
    let mut output = Output::new(Vec::new(alloc));
    assert_eq!(rt; replay(alloc, &mut input, &mut output, &mut core)?, 2);
    let line = b"0 127.0.0.1:5690 480100010000000000000001B474656D70\n";
    assert_eq!(rt; output.writer().as_slice(), line.as_slice());
    Ok(())
}

#[test]
fn coap_explain(rt: HostRuntime) -> Result<(), Fail> {
    let alloc = rt.alloc();
    let mut core = fixtures::core(alloc)?;
    let mut input = Input::new(b"0 0 192.0.2.7:40001 50010007B174\n".as_slice());
    let (mut lines, mut output) = (Output::new(Vec::new(alloc)), Vec::new(alloc));
    let mut explainer = Explainer::new(alloc, &mut output)?;
    let budget = Budget { alloc, turns: 1 };
    replay_watched(budget, &mut input, &mut lines, &mut core, &mut explainer)?;
    drop(explainer);
    let line = b"# 1 0 192.0.2.7:40001 NON GET coap://127.0.0.1:5690/temp opened\n";
    assert_eq!(rt; output.as_slice(), line.as_slice());
    Ok(())
}

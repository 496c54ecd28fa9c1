//! The calls of fm_base that take memory, with ample memory.

use fm_base::{
    ChanName, Line, Name, Path, PortValue, Printed, Refusal, Rule, Seq, Token, output_line,
};
use std::test::Fail;

#[test]
fn paths(rt: HostRuntime) -> Result<(), Fail> {
    let path = Path::main(rt.alloc()).child(rt.alloc(), 2, 10)?;
    assert_eq!(rt; path.text(rt.alloc())?.as_slice(), b"main/2.10".as_slice());
    assert!(rt; path.copy(rt.alloc())? == path);
    Ok(())
}

#[test]
fn channels(rt: HostRuntime) -> Result<(), Fail> {
    let maker = Path::main(rt.alloc());
    let channel = ChanName { maker, number: 3 };
    assert_eq!(rt; channel.text(rt.alloc())?.as_slice(), b"main:3".as_slice());
    assert!(rt; channel.copy(rt.alloc())? == channel);
    Ok(())
}

#[test]
fn values_of_ports(rt: HostRuntime) -> Result<(), Fail> {
    let maker = Path::main(rt.alloc());
    let reader = PortValue::Reader(ChanName { maker, number: 3 });
    assert!(rt; reader.copy(rt.alloc())? == reader);
    Ok(())
}

#[test]
fn names_and_tokens(rt: HostRuntime) -> Result<(), Fail> {
    let name = Name::from_bytes(rt.alloc(), b"N_1")?;
    assert!(rt; name.copy(rt.alloc())? == name);
    let token = Token::Named(name);
    assert!(rt; token.copy(rt.alloc())? == token);
    Ok(())
}

#[test]
fn texts(rt: HostRuntime) -> Result<(), Fail> {
    let refusal = Refusal {
        line: Line(12),
        rule: Rule::E54,
    };
    assert_eq!(rt;
        refusal.text(rt.alloc())?.as_slice(),
        b"line 12: E54 wrong mapping rank\n".as_slice()
    );
    let mut items = Seq::new(rt.alloc());
    items.push(Printed::Number(-7))?;
    items.push(Printed::Truth(true))?;
    items.push(Printed::Text(Seq::from_slice(rt.alloc(), b"A B")?))?;
    assert_eq!(rt;
        output_line(rt.alloc(), items.as_slice())?.as_slice(),
        b" -7 T A B".as_slice()
    );
    Ok(())
}

// What refusals, tokens and faults print.
use answers::Refusal;
use sheets::{Fault, Token};
use std::alloc::{AllocError, Global};
use std::process::Abort;

fn prints(
    rt: &impl Abort,
    heap: Global,
    refusals: &[(Refusal, &'static str)],
) -> Result<(), AllocError> {
    for (refusal, text) in refusals {
        let printed = format!(in heap; "{refusal}")?;
        assert_eq!(rt; printed.as_str(), *text);
    }
    Ok(())
}

#[test]
fn slips_and_offices(rt: HostRuntime) -> Result<(), AllocError> {
    let refusals = [
        (Refusal::NoSuchOffice, "there is no such office"),
        (Refusal::NoSuchCode, "no role has this code"),
        (Refusal::NoSuchCard, "there is no card above 255"),
        (Refusal::ShortStrip, "the strip has fewer than 1,024 places"),
        (Refusal::SameOffice, "both codes are of one office"),
        (Refusal::AlreadyLinked, "the link stands already"),
        (Refusal::NotLinked, "the link does not stand"),
        (Refusal::AlreadySuspended, "the link is suspended already"),
        (Refusal::AlreadyInForce, "the link is in force already"),
        (Refusal::NotShared, "the role linked to is not shared"),
        (Refusal::OwnTrust, "an office cannot distrust itself"),
    ];
    prints(&rt, rt.alloc(), &refusals)
}

#[test]
fn cards_and_the_register(rt: HostRuntime) -> Result<(), AllocError> {
    let refusals = [
        (Refusal::AlreadyIssued, "the card is issued already"),
        (Refusal::NotIssued, "the card is not issued"),
        (
            Refusal::ForeignRole,
            "the role is of another office than the card's",
        ),
        (Refusal::AlreadyHeld, "the card holds the role already"),
        (Refusal::NotHeld, "the card does not hold the role"),
        (Refusal::LinksFull, "there are 256 links already"),
        (Refusal::Unsound, "the result would be unsound"),
        (
            Refusal::UnknownWord,
            "the line begins with no request's word",
        ),
    ];
    prints(&rt, rt.alloc(), &refusals)
}

#[test]
fn trust(rt: HostRuntime) -> Result<(), AllocError> {
    let (truster, trusted) = (1, 2);
    let token = Token::Trust { truster, trusted };
    let printed = format!(in rt.alloc(); "{token}")?;
    assert_eq!(rt; printed.as_str(), "office 1 trusts office 2");
    let token = Token::Distrust { truster, trusted };
    let printed = format!(in rt.alloc(); "{token}")?;
    assert_eq!(rt; printed.as_str(), "office 1 trusts office 2 no more");
    let token = Token::Relieve { card: 7, code: 65 };
    let printed = format!(in rt.alloc(); "{token}")?;
    assert_eq!(rt; printed.as_str(), "relieve card 7 of role 65");
    Ok(())
}

#[test]
fn links(rt: HostRuntime) -> Result<(), AllocError> {
    let (from, to) = (65, 1);
    let token = Token::Try { from, to };
    let printed = format!(in rt.alloc(); "{token}")?;
    assert_eq!(rt; printed.as_str(), "try a link of 65 to 1");
    let token = Token::Suspend { from, to };
    let printed = format!(in rt.alloc(); "{token}")?;
    assert_eq!(rt; printed.as_str(), "suspend the link of 65 to 1");
    let token = Token::Resume { from, to };
    let printed = format!(in rt.alloc(); "{token}")?;
    assert_eq!(rt; printed.as_str(), "resume the link of 65 to 1");
    Ok(())
}

#[test]
fn faults(rt: HostRuntime) -> Result<(), AllocError> {
    let fault = Fault::WrongLength;
    let printed = format!(in rt.alloc(); "{fault}")?;
    assert_eq!(rt; printed.as_str(), "the line has another length");
    let fault = Fault::BadField { column: 15 };
    let printed = format!(in rt.alloc(); "{fault}")?;
    assert_eq!(rt;
        printed.as_str(),
        "a number, a shelf mark or an unused field is not written as it should be, at column 15"
    );
    Ok(())
}

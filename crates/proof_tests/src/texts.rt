// The texts of errors that no answer prints.
use clause_ledger::LedgerError;
use proof_judging::CheckError;
use std::test::Fail;

#[test]
fn of_checks(rt: HostRuntime) -> Result<(), Fail> {
    let text = format!(in rt.alloc();
        "{}, {}, {}",
        CheckError::ReadFault,
        CheckError::TooLong,
        CheckError::OutOfMemory
    )?;
    assert_eq!(rt;
        text.as_str(),
        "a read failed, the text is too long, out of memory"
    );
    Ok(())
}

#[test]
fn of_ledgers(rt: HostRuntime) -> Result<(), Fail> {
    let text = format!(in rt.alloc();
        "{}, {}, {}",
        LedgerError::IdLimit,
        LedgerError::OutOfMemory,
        LedgerError::WriteFault
    )?;
    assert_eq!(rt;
        text.as_str(),
        "the clause numbers are used up, out of memory, a write of the proof failed"
    );
    Ok(())
}

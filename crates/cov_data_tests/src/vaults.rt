use crate::sets::data_of;
use cov_vault::{Content, MemVault, SureVault, Vault, VaultError};
use std::alloc::{AllocError, Global};
use std::process::Abort;
use std::test::Fail;

fn pair(alloc: Global, name: &str, content: Content) -> Result<(String, Content), AllocError> {
    match String::from_str(alloc, name) {
        Ok(name) => Ok((name, content)),
        Err(error) => {
            drop(content);
            Err(error)
        }
    }
}

/// A name with line data.
fn good(alloc: Global, name: &str, rows: &str) -> Result<(String, Content), AllocError> {
    let name = String::from_str(alloc, name)?;
    let data = data_of(alloc, false, rows)?;
    Ok((name, Content::Good(data)))
}

/// Four names, one of them twice, of which the first counts.
fn contents(alloc: Global) -> Result<Vec<(String, Content)>, AllocError> {
    let mut pairs = Vec::new(alloc);
    pairs.push(pair(alloc, "d", Content::NotSchema7)?)?;
    pairs.push(good(alloc, "b", "a.py . 3 3 1")?)?;
    pairs.push(pair(alloc, "c", Content::BadRow(2))?)?;
    pairs.push(good(alloc, "b", "a.py . 4 4 1")?)?;
    pairs.push(pair(alloc, "é", Content::NotSchema7)?)?;
    Ok(pairs)
}

fn assert_names<V: Vault>(
    rt: &impl Abort,
    alloc: Global,
    vault: &mut V,
    expected: Result<&str, VaultError>,
) -> Result<(), AllocError> {
    match vault.names(alloc) {
        Ok(names) => {
            let text = names.join(alloc, " ")?;
            assert!(rt;
                expected.is_ok_and(|wanted| wanted == text.as_str()),
                "{text}"
            );
        }
        Err(error) => assert_eq!(rt; expected.err(), Some(error)),
    }
    Ok(())
}

/// The name holds data with this one line, or is refused so.
fn assert_line<V: Vault>(
    rt: &impl Abort,
    alloc: Global,
    vault: &mut V,
    name: &str,
    expected: Result<u32, VaultError>,
) -> Result<(), AllocError> {
    match vault.load(alloc, name) {
        Ok(data) => {
            let lines = data.lines("a.py")?;
            assert_eq!(rt; lines.first().copied(), expected.ok(), "{name}");
        }
        Err(error) => assert_eq!(rt; expected.err(), Some(error), "{name}"),
    }
    Ok(())
}

#[test]
fn a_vault_keeps_contents_by_name(rt: HostRuntime) -> Result<(), Fail> {
    let alloc = rt.alloc();
    let mut vault = SureVault::new(alloc, contents(alloc)?);
    assert_names(&rt, alloc, &mut vault, Ok("b c d é"))?;
    for (name, expected) in [
        ("b", Ok(3)),
        ("c", Err(VaultError::BadRow(2))),
        ("d", Err(VaultError::NotSchema7)),
        ("a", Err(VaultError::Absent)),
    ] {
        assert_line(&rt, alloc, &mut vault, name, expected)?;
    }
    let data = data_of(alloc, false, "a.py . 5 5 1")?;
    for (name, answer, line) in [
        ("a", Ok(()), Ok(5)),
        ("b", Ok(()), Ok(5)),
        ("c", Ok(()), Ok(5)),
        (
            "d",
            Err(VaultError::NotSchema7),
            Err(VaultError::NotSchema7),
        ),
    ] {
        assert_eq!(rt; vault.save(alloc, name, &data), answer, "{name}");
        assert_line(&rt, alloc, &mut vault, name, line)?;
    }
    for (name, answer) in [("b", Ok(())), ("b", Err(VaultError::Absent)), ("d", Ok(()))] {
        assert_eq!(rt; vault.remove(alloc, name), answer, "{name}");
    }
    assert_names(&rt, alloc, &mut vault, Ok("a c é"))?;
    Ok(())
}

#[test]
fn the_named_calls_fail(rt: HostRuntime) -> Result<(), Fail> {
    let alloc = rt.alloc();
    let failing = vec![in alloc; 0, 2, 4, 6]?;
    let mut vault = MemVault::new(alloc, contents(alloc)?, failing);
    assert_names(&rt, alloc, &mut vault, Err(VaultError::Failed))?;
    assert_names(&rt, alloc, &mut vault, Ok("b c d é"))?;
    assert_line(&rt, alloc, &mut vault, "b", Err(VaultError::Failed))?;
    assert_line(&rt, alloc, &mut vault, "b", Ok(3))?;
    let data = data_of(alloc, false, "a.py . 5 5 1")?;
    assert_eq!(rt; vault.save(alloc, "a", &data), Err(VaultError::Failed));
    assert_eq!(rt; vault.save(alloc, "a", &data), Ok(()));
    assert_eq!(rt; vault.remove(alloc, "b"), Err(VaultError::Failed));
    assert_names(&rt, alloc, &mut vault, Ok("a b c d é"))?;
    Ok(())
}

//! A key of a file and of words, a word that names it, and a value that is written.
use super::*;
use std::test::Fail;

#[test]
fn values_are_read_and_written(rt: HostRuntime) -> Result<(), Fail> {
    assert!(rt; integer(b"-0x1k") == Some(-1024));
    let home = matches!(config_path(b"~/ig"), ConfigPath::Home(b"/ig"));
    assert!(rt; home);
    let text = quoted(rt.alloc(), b"v\"\\")?;
    let same = text.as_slice() == b"\"v\\\"\\\\\"".as_slice();
    assert!(rt; same);
    Ok(())
}

#[test]
fn the_last_value_of_a_key_counts(rt: HostRuntime) -> Result<(), Fail> {
    let file = b"[a \"S\"]\nb=yes\nB=off\n[a \"s\"]\nb=maybe";
    let mut config = Config::new(rt.alloc());
    config.add_file(rt.alloc(), b"/f", file)?;
    let (told, value) = split_word(b"A.S.B=");
    assert!(rt; value.is_some());
    let key = canonical_key(rt.alloc(), told)?.ok_or("a key")?;
    assert!(rt; config.boolean(&key) == Ok(Some(false)));
    let wrong = config
        .boolean(b"a.s.b")
        .map_err(|setting| setting.entry.line);
    assert!(rt; wrong == Err(5));
    Ok(())
}

/// A source in which there is no file.
#[derive(Drop)]
struct NoFiles;

impl ConfigFiles for NoFiles {
    ghost use Rattle.std.specs.Prelude.{◌≡◌, None};

    type Fault = ();

    ghost shows = { λ _ _ found. found ≡ None };

    fn find(&self, _path: &[u8]) -> Result<Option<FoundFile<Vec<u8>>>, ()> {
        Ok(None)
    }
}

#[test]
fn the_last_of_several_words_counts(rt: HostRuntime) -> Result<(), Fail> {
    let around = Surroundings {
        home: None,
        real_home: None,
        installed: None,
        users: Vec::new(rt.alloc()),
        git_folders: Vec::new(rt.alloc()),
        branch: None,
        urls: None,
    };
    let words = [
        Source::File(b"/nowhere"),
        Source::Word {
            key: b"A.b",
            value: Some(b"maybe"),
        },
        Source::Word {
            key: b"a.c",
            value: Some(b"no"),
        },
        Source::Word {
            key: b"a.c",
            value: None,
        },
    ];
    let config = Config::read(rt.alloc(), &NoFiles, &around, &words).map_err(|_fault| "a fault")?;
    assert!(rt; config.entries_of(rt.alloc(), b"a.c")?.len() == 2);
    assert!(rt; config.boolean(b"a.c") == Ok(Some(true)));
    assert!(rt; config.boolean(b"a.b").is_err());
    assert!(rt;
        config
            .last_of(b"a.c")
            .is_some_and(|last| last.entry.line == 4)
    );
    Ok(())
}

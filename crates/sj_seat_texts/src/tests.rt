use crate::{Texts, named_file};
use sj_base::NoMemory;
use sj_lang::{File, Names, Words};
use std::alloc::Global;
use std::test::Fail;

// The table of a file with two texts.
fn table(alloc: Global) -> Result<Words, NoMemory> {
    let mut words = Words::new(alloc);
    let _ = words.add(b"Paris")?;
    let _ = words.add(b"")?;
    Ok(words)
}

// The numbers of texts, asked for one after another.
fn numbers(alloc: Global, asked: &[&[u8]]) -> Result<Vec<u32>, NoMemory> {
    let mut texts = Texts::of(alloc, &table(alloc)?)?;
    let mut numbers = Vec::new(alloc);
    for text in asked {
        numbers.push(texts.number(text)?)?;
    }
    Ok(numbers)
}

#[test]
fn a_text_has_one_number_whoever_asks(rt: HostRuntime) -> Result<(), Fail> {
    let asked = [
        b"Paris".as_slice(),
        b"Oslo".as_slice(),
        b"".as_slice(),
        b"Rome".as_slice(),
        b"Oslo".as_slice(),
    ];
    let Ok(numbers) = numbers(rt.alloc(), &asked) else {
        return Err(Fail::from("no memory"));
    };
    assert_eq!(rt; numbers.as_slice(), [0, 2, 1, 3, 2].as_slice());
    Ok(())
}

// What stands in a table of the file that gets a text that was added.
fn added(alloc: Global, text: &[u8]) -> Result<bool, NoMemory> {
    let mut words = table(alloc)?;
    let mut texts = Texts::of(alloc, &words)?;
    let number = texts.number(text)?;
    texts.add_to(&mut words)?;
    Ok(words.get(number as usize) == Some(text) && texts.get(number) == Some(text))
}

#[test]
fn a_table_of_the_file_gets_all_texts(rt: HostRuntime) -> Result<(), Fail> {
    let Ok(same) = added(rt.alloc(), b"Oslo") else {
        return Err(Fail::from("no memory"));
    };
    assert_eq!(rt; same, true);
    Ok(())
}

// A file that has two texts, and nothing else.
fn bare(alloc: Global) -> Result<File, NoMemory> {
    let words = Words::new(alloc);
    let texts = table(alloc)?;
    Ok(File {
        names: Names { words, texts },
        protocols: Vec::new(alloc),
        parties: Vec::new(alloc),
        connects: Vec::new(alloc),
    })
}

#[test]
fn a_named_file_has_the_texts_of_the_run(rt: HostRuntime) -> Result<(), Fail> {
    let file = bare(rt.alloc())?;
    let mut texts = Texts::of(rt.alloc(), &file.names.texts)?;
    let number = texts.number(b"Oslo")?;
    let named = named_file(rt.alloc(), &file, texts)?;
    let all = &named.names.texts;
    assert_eq!(rt; all.get(0), Some(b"Paris".as_slice()));
    assert_eq!(rt; all.get(number as usize), Some(b"Oslo".as_slice()));
    Ok(())
}

ghost use Rattle.std.specs.Prelude.{◌≡◌, ◌<◌, ◌≤◌, ℕ, List, None, length, MatchOption, IfOk, OnOk, OnErr, vec_len};
ghost use Rattle.sl_base.specs.RealWords.{names_of_words, HasNoWord, IsWordAt, IsBlamedWord};
ghost use Rattle.sl_base.specs.Counts.{one_more, faults_after};
ghost use Rattle.sl_base.specs.Outside.{Rose, NoFault};

use crate::outside::blame::Blame;
use crate::{Failed, Files};
use std::alloc::{AllocError, Global};
use std::fs;
use std::io::Read;
use std::rt::Files as System;

/// The files of the system that the words of a command name. They tell nothing of their bytes. A file is opened
/// at its first read and stays open; a name that is none of the words fails.
#[derive(Drop)]
pub struct RealFiles<R: System + Drop> {
    system: R,
    words: Vec<String>,
    opened: Vec<Option<R::File>>,
    faults: u64,
    blame: Blame,
    ghost one_each: { vec_len opened ≡ vec_len words },
}

impl<R: System + Drop> RealFiles<R> {
    /// The files that these words name. Takes memory for a copy of the words and for one open file a word.
    pub fn new(system: R, alloc: Global, words: &[String]) -> Result<RealFiles<R>, AllocError>
        ensures faults { IfOk result (λ f. f.faults ≡ 0) }
        ensures unblamed { IfOk result (λ f. (name : List ℕ) → IsBlamedWord f.words.items f.blame name → ⊥) }
        ensures words { IfOk result (λ f. names_of_words f.words.items ≡ names_of_words words.now) }
    {
        let mut copies = Vec::new(alloc);
        let mut opened = Vec::new(alloc);
        for word in words {
            copies.push(word.clone()?)?;
            opened.push(None)?;
        }
        Ok(RealFiles {
            system,
            words: copies,
            opened,
            faults: 0,
            blame: Blame::Nothing,
        })
    }

    // Counts a fault, and says what it was of.
    fn fail(&mut self, blame: Blame) -> Failed
        ensures faults { self.new.faults ≡ one_more self.old.faults }
        ensures no_fall { self.old.faults ≤ self.new.faults }
        ensures blame { self.new.blame ≡ blame }
        ensures words { self.new.words ≡ self.old.words }
    {
        self.faults = self.faults.saturating_add(1);
        self.blame = blame;
        Failed
    }
}

// The index of the first word that is this name.
fn place_of_word(words: &[String], name: &str) -> Option<usize>
    ensures { MatchOption result (HasNoWord words.now name.now) (IsWordAt words.now name.now) }
{
    for (i, word) in words.iter().enumerate() {
        if word.as_str() == name {
            return Some(i);
        }
    }
    None
}

impl<R: System + Drop> Files for RealFiles<R> {
    ghost left = { λ _ _. None };

    ghost faults = { λ f. f.faults };

    ghost blamed = { λ f name. IsBlamedWord f.words.items f.blame name };

    // The clauses of the trait.
    fn read(&mut self, name: &str, buf: &mut [u8]) -> Result<usize, Failed>
        requires { 0 < length buf.old }
        ensures bound { IfOk result (λ n. n ≤ length buf.new) }
        ensures no_fall { self.old.faults ≤ self.new.faults }
        ensures steady { OnOk result
            (NoFault self.old.faults self.new.faults
            (IsBlamedWord self.old.words.items self.old.blame) (IsBlamedWord self.new.words.items self.new.blame)) }
        ensures risen { OnErr result (Rose self.old.faults self.new.faults) }
        ensures blame { OnErr result (IsBlamedWord self.new.words.items self.new.blame name.now) }

        // A name that is none of the words fails; what fails is counted; the words stay.
        ensures is_word { OnOk result (HasNoWord self.old.words.items name.now → ⊥) }
        ensures counted { self.new.faults ≡ faults_after result self.old.faults }
        ensures words { self.new.words.items ≡ self.old.words.items }
    {
        let Some(i) = place_of_word(&self.words, name) else {
            return Err(self.fail(Blame::Unknown));
        };
        if self.opened[i].is_none() {
            match fs::open(&self.system, name) {
                Ok(file) => self.opened[i] = Some(file),
                Err(_) => return Err(self.fail(Blame::Known(i))),
            }
        }
        if let Some(file) = &mut self.opened[i] {
            if let Ok(count) = file.read(buf) {
                return Ok(count);
            }
        }
        Err(self.fail(Blame::Known(i)))
    }
}

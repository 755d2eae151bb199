// What a line says, from its words.

ghost use Rattle.std.specs.Prelude.{◌≡◌, ℕ, List, [], IfOk, codes, MatchOption, OnOk};
ghost use Rattle.script.specs.Numerals.{Decimal};
ghost use Rattle.script.specs.Words.{Cut, Ended, Worded};
ghost use Rattle.script.specs.Says.{Field, Described, Follows, Spelt, Says};

use crate::bad::{BadLine, Expected, Unread};
use crate::line::Line;
use crate::number::{decimal, hex_byte};
use crate::words::Words;
use curve::lot::Terms;
use std::alloc::Global;

impl<'a> Words<'a> {
    // The next word has to be this one.
    fn keyword(&mut self, word: &'static str) -> Result<(), BadLine<'a>>
        ensures { OnOk result (Cut self.old.rest.now word.now self.new.rest.now) }
    {
        let expected = Expected::Word(word);
        match self.next() {
            Some(found) if found == word => Ok(()),
            found => Err(BadLine { expected, found }),
        }
    }

    // The next word has to be a number.
    fn number(&mut self) -> Result<u64, BadLine<'a>>
        ensures { IfOk result (λ n. ((w : List ℕ) × Cut self.old.rest.now w self.new.rest.now × Decimal w n)) }
    {
        let expected = Expected::Number;
        let found = self.next();
        found.and_then(decimal).ok_or(BadLine { expected, found })
    }

    // The next two words have to be the name of a field and its number.
    fn field(&mut self, name: &'static str) -> Result<u64, BadLine<'a>>
        ensures { IfOk result (λ n. Field self.old.rest.now name.now n self.new.rest.now) }
    {
        self.keyword(name)?;
        self.number()
    }

    // The line has to end here.
    fn end(&mut self) -> Result<(), BadLine<'a>>
        ensures { OnOk result (Ended self.old.rest.now) }
    {
        let expected = Expected::End;
        match self.next() {
            None => Ok(()),
            found => Err(BadLine { expected, found }),
        }
    }

    // The bytes that the rest of the line spells.
    fn page_bytes(&mut self, heap: Global) -> Result<Vec<u8>, Unread<'a>>
        ensures { IfOk result (λ v. ((ws : List (List ℕ)) × Worded self.old.rest.now ws × Spelt ws v.items)) }
    {
        let expected = Expected::HexByte;
        let mut bytes = Vec::new(heap);
        for word in self.by_ref() {
            let found = Some(word);
            let byte = hex_byte(word).ok_or(BadLine { expected, found })?;
            bytes.push(byte)?;
        }
        Ok(bytes)
    }

    // The fields of a lot, each after its name.
    fn terms(&mut self) -> Result<Terms, BadLine<'a>>
        ensures { IfOk result (λ t. Described self.old.rest.now t self.new.rest.now) }
    {
        Ok(Terms {
            issuer: self.field("issuer")?,
            class: self.field("class")?,
            rating: self.field("rating")?,
            months: self.field("months")?,
            market: self.field("value")?,
        })
    }

    // `book NUMBER`, after its first word.
    fn book(&mut self) -> Result<Line, BadLine<'a>>
        ensures { IfOk result (λ l. Follows (codes "book") self.old.rest.now l) }
    {
        let expected = Expected::BookNumber;
        let mut at = *self;
        let number = self.number()?;
        self.end()?;
        // Its word is looked for again only where it is refused. Not by `map_err`: its closure keeps the words in memory, byte for byte.
        match u16::try_from(number) {
            Ok(number) => Ok(Line::Book(number)),
            Err(_) => {
                let found = at.next();
                Err(BadLine { expected, found })
            }
        }
    }

    // `page CLASS HEX HEX ...`, after its first word.
    fn page(&mut self, heap: Global) -> Result<Line, Unread<'a>>
        ensures { IfOk result (λ l. Follows (codes "page") self.old.rest.now l) }
    {
        let class = self.number()?;
        let bytes = self.page_bytes(heap)?;
        Ok(Line::Page(class, bytes))
    }

    // `add PLACE issuer I class C rating R months M value V`, after its first word.
    fn add(&mut self) -> Result<Line, BadLine<'a>>
        ensures { IfOk result (λ l. Follows (codes "add") self.old.rest.now l) }
    {
        let place = self.number()?;
        let terms = self.terms()?;
        self.end()?;
        Ok(Line::Add(place, terms))
    }

    // What a line says, from its first word on.
    fn after(&mut self, first: &'a str, heap: Global) -> Result<Line, Unread<'a>>
        ensures { IfOk result (λ l. Follows first.now self.old.rest.now l) }
    {
        let expected = Expected::Order;
        let found = Some(first);
        match first {
            "book" => Ok(self.book()?),
            "page" => self.page(heap),
            "add" => Ok(self.add()?),
            _ => Err(Unread::Bad(BadLine { expected, found })),
        }
    }

    // What the rest of a line says; nothing, if it has no word.
    fn line(&mut self, heap: Global) -> Result<Option<Line>, Unread<'a>>
        ensures { IfOk result (λ o. MatchOption o (Worded self.old.rest.now []) (λ l. ((ws : List (List ℕ)) × Worded self.old.rest.now ws × Says ws l))) }
    {
        let Some(first) = self.next() else {
            return Ok(None);
        };
        let line = self.after(first, heap)?;
        Ok(Some(line))
    }
}

// What a line says; nothing, if it has no word.
pub fn read<'a>(heap: Global, text: &'a str) -> Result<Option<Line>, Unread<'a>>
    ensures { IfOk result (λ o. MatchOption o (Worded text.now []) (λ l. ((ws : List (List ℕ)) × Worded text.now ws × Says ws l))) }
{
    Words::new(text).line(heap)
}

// A text with named parts, of which a row may change some.
use crate::sheet::halves;
use std::alloc::{AllocError, Global};

/// How a text begins that says that a place of it was not there.
pub const NO_PLACE: &str = "no such place: ";

/// A part of a text: its name, how its places are marked, what stands there where no row changes it, and else what the row puts there.
#[derive(Drop)]
struct Part {
    name: String,
    mark: String,
    unchanged: String,
    is_changed: bool,
    new: String,
}

/// A place of the changed text, and what stands there instead.
#[derive(Drop)]
struct Place {
    old: String,
    new: String,
}

/// A text, and what the row changes in it. Its part NAME stands wherever it has `@NAME@`.
#[derive(Drop)]
pub struct Template {
    alloc: Global,
    text: String,
    parts: Vec<Part>,
    places: Vec<Place>,
}

impl Part {
    /// Puts a line behind those that the row has put there.
    fn add(&mut self, line: &str) -> Result<(), AllocError> {
        if self.is_changed {
            self.new.push_str("\n")?;
        }
        self.is_changed = true;
        self.new.push_str(line)
    }

    /// The text with this part in its places. A text without them says so.
    fn put(&self, alloc: Global, text: &str) -> Result<String, AllocError> {
        let mark = self.mark.as_str();
        if !text.contains(mark) {
            return format!(in alloc; "{NO_PLACE}{mark}");
        }
        let new = if self.is_changed {
            &self.new
        } else {
            &self.unchanged
        };
        text.replace(alloc, mark, new.as_str())
    }
}

impl Template {
    /// No text.
    pub fn new(alloc: Global) -> Template {
        Template {
            alloc,
            text: String::new(alloc),
            parts: Vec::new(alloc),
            places: Vec::new(alloc),
        }
    }

    /// Takes a line of this key; false: there is no such key, or its text is none of it.
    pub fn take(&mut self, key: &str, text: &str) -> Result<bool, AllocError> {
        let (first, second) = halves(text);
        match key {
            "text" => *self = Template::new(self.alloc),
            "|" => write!(self.text, "{text}\n")?,
            "part" => self.add_part(first, second)?,
            _ => return self.take_change(key, text),
        }
        Ok(true)
    }

    /// Takes a line of what the row changes.
    fn take_change(&mut self, key: &str, text: &str) -> Result<bool, AllocError> {
        match key {
            "place" => self.add_place(text),
            "has" => self.fill_place(text),
            _ => self.add(key, text),
        }
    }

    /// A part, and what stands there where no row changes it.
    fn add_part(&mut self, name: &str, unchanged: &str) -> Result<(), AllocError> {
        self.parts.push(Part {
            name: String::from_str(self.alloc, name)?,
            mark: format!(in self.alloc; "@{name}@")?,
            unchanged: String::from_str(self.alloc, unchanged)?,
            is_changed: false,
            new: String::new(self.alloc),
        })?;
        Ok(())
    }

    /// A place, for which nothing stands so far.
    fn add_place(&mut self, old: &str) -> Result<bool, AllocError> {
        self.places.push(Place {
            old: String::from_str(self.alloc, old)?,
            new: String::new(self.alloc),
        })?;
        Ok(true)
    }

    /// What stands for the last place.
    fn fill_place(&mut self, new: &str) -> Result<bool, AllocError> {
        match self.places.last_mut() {
            Some(last) => {
                last.new.push_str(new)?;
                Ok(true)
            }
            None => Ok(false),
        }
    }

    /// Adds a line to a part; false: there is no such part.
    fn add(&mut self, name: &str, line: &str) -> Result<bool, AllocError> {
        for part in &mut self.parts {
            if part.name.as_str() == name {
                part.add(line)?;
                return Ok(true);
            }
        }
        Ok(false)
    }

    /// The text with the changed parts.
    pub fn changed(&self) -> Result<String, AllocError> {
        let mut text = String::from_str(self.alloc, self.text.as_str())?;
        for part in &self.parts {
            text = part.put(self.alloc, text.as_str())?;
        }
        Ok(text)
    }

    /// A text with the row's places changed, of each the first. A text without such a place says so.
    pub fn with_places(&self, text: String) -> Result<String, AllocError> {
        let mut text = text;
        for place in &self.places {
            let (old, new) = (place.old.as_str(), place.new.as_str());
            text = match text.as_str().split_once(old) {
                Some((before, behind)) => format!(in self.alloc; "{before}{new}{behind}")?,
                None => format!(in self.alloc; "{NO_PLACE}{old}")?,
            };
        }
        Ok(text)
    }

    /// The next row changes nothing so far.
    pub fn end_row(&mut self) {
        for part in &mut self.parts {
            part.is_changed = false;
            part.new.clear();
        }
        self.places.clear();
    }
}

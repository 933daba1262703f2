// Keys as people read them.
ghost use Rattle.std.specs.Prelude.{Some, option_map};
ghost use Rattle.keys.specs.KeyTexts.{route_text, section_text, area_text};

use super::area::Area;
use super::route::Route;
use super::section::Section;
use std::fmt;

impl fmt::Display for Route {
    ghost output = { λ route. Some (route_text route) };

    fn fmt<W: fmt::Write>(&self, f: &mut fmt::Formatter<W>) -> fmt::Result {
        let entry = self.entry();
        let exit = self.exit();
        let class = self.class();
        write!(f, "{entry} {exit} {class}")
    }
}

impl fmt::Display for Section {
    ghost output = { λ section. Some (section_text section) };

    fn fmt<W: fmt::Write>(&self, f: &mut fmt::Formatter<W>) -> fmt::Result {
        let name = str::from_utf8(self.name()).unwrap();
        f.write_str(name)
    }
}

impl<K: fmt::Display> fmt::Display for Area<K> {
    ghost output = { λ area. option_map (λ key. area_text (λ _. key) area) (K.output area.key) };

    fn fmt<W: fmt::Write>(&self, f: &mut fmt::Formatter<W>) -> fmt::Result {
        let number = self.number;
        let key = &self.key;
        write!(f, "{number} {key}")
    }
}

// The files of a family.
ghost use Rattle.std.specs.Prelude.{◌≡◌, ◌≤◌, length};
ghost use Rattle.plan_manager.specs.Family.{family_name, file_name};
ghost use Rattle.lama_num.specs.declared.names.TheConstants.{MOST_PLANS};

use lama_num::NameBuf;

/// A file of a family: the base itself, or `base.n`.
#[derive(Drop)]
pub enum FamilyFile<'a> {
    Base(&'a NameBuf),
    Numbered(NameBuf),
}

impl<'a> FamilyFile<'a> {
    /// The file of a number: 0 is the base itself, and n is `base.n`.
    pub fn new(base: &'a NameBuf, number: u32) -> FamilyFile<'a>
        requires short { length base.now ≤ 230 }
        requires number { number ≤ MOST_PLANS }
        ensures { file_name result ≡ family_name base.now number }
    {
        if number == 0 {
            return FamilyFile::Base(base);
        }
        FamilyFile::Numbered(base.numbered(number))
    }

    /// Its name.
    pub fn name(&self) -> &str
        ensures { result.now ≡ file_name self.now }
    {
        match self {
            FamilyFile::Base(name) => name.text(),
            FamilyFile::Numbered(name) => name.text(),
        }
    }
}

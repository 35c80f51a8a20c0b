//! What references to members mean (JVM Specification, Java SE 7, section 4.4.2).
ghost use Rattle.std.specs.Prelude.{◌≡◌, List, ℕ, option_map, option_copied};
ghost use Rattle.jmodel.specs.format.Pool.{pair as pair_of, named as named_of, member_name, class_name as class_of, MemberName};

use crate::pool::Pool;
use jmodel::{Bytes, Constant};

impl Pool {
    // The name and the descriptor of a NameAndType.
    fn pair(&self, i: u16) -> Option<(&Bytes, &Bytes)>
        ensures { option_map {U = List ℕ × List ℕ} (λ p. (p.0.now, p.1.now)) result ≡ pair_of self.now i }
    {
        match self.entry(i) {
            Some(Constant::NameAndType { name, descriptor }) => {
                let name = self.utf8(*name)?;
                let descriptor = self.utf8(*descriptor)?;
                Some((name, descriptor))
            }
            _ => None,
        }
    }

    fn named(&self, class: u16, pair: u16) -> Option<(&Bytes, &Bytes, &Bytes)>
        ensures { option_map {U = MemberName} (λ m. record { class = m.0.now; name = m.1.now; descriptor = m.2.now }) result ≡ named_of (class_of self.now class) (pair_of self.now pair) }
    {
        let class = self.class_name(class)?;
        let (name, descriptor) = self.pair(pair)?;
        Some((class, name, descriptor))
    }

    /// The class, the name and the descriptor of a Fieldref, a Methodref or an InterfaceMethodref, None where the index isn't
    /// one's that has them. Takes no memory.
    pub fn member(&self, i: u16) -> Option<(&Bytes, &Bytes, &Bytes)>
        ensures { option_map {U = MemberName} (λ m. record { class = m.0.now; name = m.1.now; descriptor = m.2.now }) result ≡ member_name self.now i }
    {
        match self.entry(i) {
            Some(Constant::Field { class, pair }) => self.named(*class, *pair),
            Some(Constant::Method { class, pair }) => self.named(*class, *pair),
            Some(Constant::InterfaceMethod { class, pair }) => self.named(*class, *pair),
            _ => None,
        }
    }
}

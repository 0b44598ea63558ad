// Choices and nodes whose parts are lent.

ghost use Rattle.std.specs.Prelude.{◌≡◌};
ghost use Rattle.std.specs.Option.{option_copied};
ghost use Rattle.problems.specs.Tied.NodeEquality.{is_node};

use crate::nodes::is_asked;
use pep440::Version;
use pep508::Name;
use std::marker::Model;

/// A node whose parts are lent. In a clause it is the node.
pub struct LentNode<'a> {
    pub name: &'a Name,
    pub extra: Option<&'a Name>,
}

impl<'a> Drop for LentNode<'a> {
    fn drop(self) {
        let LentNode { name: _, extra: _ } = self;
    }
}

impl<'a> Model for LentNode<'a> {
    ghost use Rattle.std.specs.Option.{option_copied};
    ghost use Rattle.problems.specs.declared.node.Node.{Node};

    ghost Value = { Node };

    ghost view = { λ n. record { name = n.name.now; extra = option_copied n.extra } };
}

impl<'a> LentNode<'a> {
    /// Whether it is the node of this name with this extra or none.
    pub fn is_of(&self, name: &Name, extra: Option<&Name>) -> bool
        ensures { result ≡ is_node (record { name = name.now; extra = option_copied extra.entry })
            self.now.name self.now.extra }
    {
        name.normal() == self.name.normal() && is_asked(extra, self.extra)
    }
}

/// A choice whose parts are lent. In a clause it is the choice.
pub struct LentChoice<'a, 'n> {
    pub node: &'a LentNode<'n>,
    pub version: &'a Version,
}

impl<'a, 'n> Drop for LentChoice<'a, 'n> {
    fn drop(self) {
        let LentChoice {
            node: _,
            version: _,
        } = self;
    }
}

impl<'a, 'n> Model for LentChoice<'a, 'n> {
    ghost use Rattle.problems.specs.Choices.{ChoiceParts};

    ghost Value = { ChoiceParts };

    ghost view = { λ c. record { node = c.node.now; version = c.version.now } };
}

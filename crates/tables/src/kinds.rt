// The kinds of nodes, and which may be joined.
ghost use Rattle.std.specs.Prelude.{◌≡◌};
ghost use Rattle.tables.specs.Kinds.{number_of, IsKind};
ghost use Rattle.tables.specs.Tests.{may_hold_of, may_refer_of};

#[derive(Clone, Copy, Debug, PartialEq, Eq)]
pub enum NodeKind {
    Root = 0,
    Element = 1,
    PlainAttribute = 2,
    IdAttribute = 3,
    RefAttribute = 4,
    Value = 5,
}

// A number that is no kind's.
#[derive(Clone, Copy, Debug, PartialEq, Eq)]
pub struct NoKind;

impl TryFrom<u32> for NodeKind {
    type Error = NoKind;

    ghost try_from_gives = { IsKind };

    fn try_from(number: u32) -> Result<NodeKind, NoKind> {
        match number {
            0 => Ok(NodeKind::Root),
            1 => Ok(NodeKind::Element),
            2 => Ok(NodeKind::PlainAttribute),
            3 => Ok(NodeKind::IdAttribute),
            4 => Ok(NodeKind::RefAttribute),
            5 => Ok(NodeKind::Value),
            _ => Err(NoKind),
        }
    }
}

// Whether a parent of one kind may hold a child of another.
pub(crate) fn may_hold(parent: NodeKind, child: NodeKind) -> bool
    ensures { result ≡ may_hold_of (number_of parent) (number_of child) }
{
    match parent {
        NodeKind::Root | NodeKind::Element => child != NodeKind::Root,
        NodeKind::PlainAttribute | NodeKind::IdAttribute => child == NodeKind::Value,
        NodeKind::RefAttribute | NodeKind::Value => false,
    }
}

// Whether an attribute of one kind may refer to a target of another.
pub(crate) fn may_refer(attribute: NodeKind, target: NodeKind) -> bool
    ensures { result ≡ may_refer_of (number_of attribute) (number_of target) }
{
    attribute == NodeKind::RefAttribute && target == NodeKind::Element
}

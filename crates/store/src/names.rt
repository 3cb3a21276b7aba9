// The first cells of the 96 macro names, 0 for an empty body.
ghost use Rattle.std.specs.Prelude.{◌≡◌};
ghost use Rattle.rules.specs.Store.{first_of, set_first};
ghost use Rattle.store.specs.Lent.{IsName};

pub fn first_of(firsts: &[u8; 96], name: u8) -> u8
    requires { IsName name }
    ensures { result ≡ first_of firsts.now name }
{
    firsts[(name - 32) as usize]
}

pub fn set_first(firsts: &mut [u8; 96], name: u8, cell: u8)
    requires { IsName name }
    ensures { firsts.new ≡ set_first firsts.old name cell }
{
    firsts[(name - 32) as usize] = cell;
}

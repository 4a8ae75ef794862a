// What is claimed of one dead board on the cube (specs/Cube.antt), each a clause of a function that does nothing.

ghost use Rattle.single_crash.specs.Cube.{CubeInGrants, CubeInRounds, CubeNoFewerGrants, CubeNoFewerRounds};

// One dead board on the cube, at sizes that are powers of two, from four boards on (specs/Cube.antt).
pub fn one_dead_on_cube()
    // It is known everywhere after (n − 1)(d + 2) − 1 grants.
    ensures in_grants { CubeInGrants }
    // And in the second round at the latest.
    ensures in_rounds { CubeInRounds }
    // From 8 boards on one grant fewer is not enough at any size.
    ensures no_fewer_grants { CubeNoFewerGrants }
    // Nor is one round.
    ensures no_fewer_rounds { CubeNoFewerRounds }
{}

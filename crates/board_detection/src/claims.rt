// What is claimed of detection by boards (specs/Detect.antt), each a clause of a function that does nothing.

ghost use Rattle.detection.specs.Claim.{square_rounds, triangle_rounds, worst_rounds};
ghost use Rattle.board_detection.specs.Detect.{BoardsDetect, FreshBoardsBegin};
ghost use Rattle.board_detection.specs.Example.{FourBoards, FourOnRing};

// Detection by boards alone (specs/Detect.antt).
pub fn boards_detect()
    // After d·d closed rounds on the cube, n − 1 on the ring, each live board's line suspects just the boards that are not live, and the tests are
    // those counted.
    ensures in_square { BoardsDetect square_rounds }
    // The same within 1 + d(d − 1)/2 rounds on the cube, n − 1 on the ring.
    ensures in_triangle { BoardsDetect triangle_rounds }
    // The same within the worst-case latency on the cube, n/2 rounds on the ring.
    ensures in_worst_case { BoardsDetect worst_rounds }
    // Boards whose lines are fresh meet what is supposed of boards, on each wiring.
    ensures fresh_boards_begin { FreshBoardsBegin }
{}

// Computed (specs/Example.antt).
pub fn examples()
    // Four boards on the cube, board 3 dead: they meet what is supposed of boards, and three rounds of seven tests close.
    ensures four_boards { FourBoards }
    // Four boards on the ring, board 1 dead: three rounds of four tests close.
    ensures four_on_ring { FourOnRing }
{}

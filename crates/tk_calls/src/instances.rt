//! The texts of small instances.

/// The corners of a square.
pub const SQUARE: &[u8] =
    b"NAME : p\nTYPE : TSP\nDIMENSION : 4\nEDGE_WEIGHT_TYPE : EUC_2D\nNODE_COORD_SECTION\n1 0 0\n2 10 10\n3 10 0\n\
    4 0 10\nEOF\n";

/// Two cities with explicit weights, at places in pictures.
pub const MAP: &[u8] =
    b"TYPE : TSP\nDIMENSION : 2\nEDGE_WEIGHT_TYPE : EXPLICIT\nEDGE_WEIGHT_FORMAT : UPPER_ROW\nEDGE_WEIGHT_SECTION\n5\n\
    DISPLAY_DATA_SECTION\n1 0 0\n2 3 4\n";

/// Eight cities in a row, one apart.
pub const ROW: &[u8] =
    b"TYPE : TSP\nDIMENSION : 8\nEDGE_WEIGHT_TYPE : MAN_2D\nNODE_COORD_SECTION\n1 0 0\n2 1 0\n3 2 0\n4 3 0\n5 4 0\n\
    6 5 0\n7 6 0\n8 7 0\n";

/// Five cities with explicit weights, for which a segment must be moved.
pub const FIVE: &[u8] =
    b"TYPE : TSP\nDIMENSION : 5\nEDGE_WEIGHT_TYPE : EXPLICIT\nEDGE_WEIGHT_FORMAT : UPPER_ROW\nEDGE_WEIGHT_SECTION\n\
    10 1 10 10\n1 100 10\n10 10\n10\n";

/// Four customers, and one vehicle with room for all.
pub const ROUTING: &[u8] =
    b"TYPE : CVRP\nDIMENSION : 5\nCAPACITY : 4\nEDGE_WEIGHT_TYPE : EXPLICIT\nEDGE_WEIGHT_FORMAT : UPPER_ROW\n\
    EDGE_WEIGHT_SECTION\n10 10 10 10\n10 11 11\n12 19\n20\nDEMAND_SECTION\n1 0\n2 1\n3 1\n4 1\n5 1\nDEPOT_SECTION\n1\n\
    -1\nEOF\n";

/// Eight customers in two groups of four, and vehicles with room for one group each.
pub const TWO_GROUPS: &[u8] =
    b"TYPE : CVRP\nDIMENSION : 9\nCAPACITY : 4\nEDGE_WEIGHT_TYPE : EXPLICIT\nEDGE_WEIGHT_FORMAT : UPPER_ROW\n\
    EDGE_WEIGHT_SECTION\n10 10 10 10 10 10 10 10\n10 11 11 20 20 20 20\n12 19 20 20 20 20\n20 20 20 20 20\n\
    20 20 20 20\n10 11 11\n12 19\n20\nDEMAND_SECTION\n1 0\n2 1\n3 1\n4 1\n5 1\n6 1\n7 1\n8 1\n9 1\nDEPOT_SECTION\n1\n\
    -1\nEOF\n";

/// A tour of four cities.
pub const TOUR: &[u8] = b"TYPE : TOUR\nDIMENSION : 4\nTOUR_SECTION\n1 2 3 4\n-1\nEOF\n";

/// Two routes.
pub const SOLUTION: &[u8] = b"Route #1: 1 2\nRoute #2: 3 4\nCost 44\n";

/// Parameters of one run, with a key that is ignored.
pub const PARAMETERS: &[u8] = b"# c\nMOVE_TYPE = 5\nPROBLEM_FILE = p.tsp\nRUNS = 1\n";
